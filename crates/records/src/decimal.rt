// Numbers in decimal, without a division or a remainder.
ghost use Rattle.std.specs.Prelude.{◌≡◌, ◌≤◌, ◌/◌, length};
ghost use Rattle.definition.specs.Limits.{number_digits};
ghost use Rattle.definition.specs.Names.{decimal};
ghost use Rattle.records.specs.Buffer.{Put, count_limit};

use crate::write::put_byte;

// A tenth of a number is its multiple by TENTH over 2 to TENTH_SHIFT: that is so little more than a tenth that no two-byte number's
// whole part differs.
const TENTH: u32 = 52429;

const TENTH_SHIFT: u32 = 19;

// The tenth of a number, rounded down.
fn tenth(n: u16) -> u16
    ensures { result ≡ n / 10 }
{
    ((n as u32 * TENTH) >> TENTH_SHIFT) as u16
}

// The digits of a number: what stands before the last one, then that.
fn put_digits(out: &mut [u8], at: usize, n: u16) -> usize
    requires { at ≤ count_limit }
    ensures { Put out.old out.new (decimal n) at result }
{
    if n < 10 {
        return put_byte(out, at, b'0' + n as u8);
    }
    let t = tenth(n);
    let behind = put_digits(out, at, t);
    put_byte(out, behind, b'0' + (n - t * 10) as u8)
}

// A number in decimal. Most have one digit, for which nothing is called.
pub fn put_decimal(out: &mut [u8], at: usize, n: u16) -> usize
    requires { at ≤ count_limit }
    ensures { Put out.old out.new (decimal n) at result }
{
    if n < 10 {
        return put_byte(out, at, b'0' + n as u8);
    }
    put_digits(out, at, n)
}

// How many bytes put_decimal writes.
pub fn digits(n: u16) -> usize
    ensures { (result ≡ length (decimal n)) × (result ≤ number_digits) }
{
    if n < 10 {
        return 1;
    }
    if n < 100 {
        return 2;
    }
    if n < 1000 {
        return 3;
    }
    if n < 10000 {
        return 4;
    }
    5
}
