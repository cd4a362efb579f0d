// What `desk` prints: all of its input to all of its output.
ghost use Rattle.std.specs.Prelude.{◌≡◌, length};
ghost use Rattle.definition.specs.Base.{refused, accepted};
ghost use Rattle.definition.specs.Desk.{desk_of, printed};
ghost use Rattle.definition.specs.Flatten.{laid_over};
ghost use Rattle.definition.specs.Limits.{answer_bytes};
ghost use Rattle.records.specs.Buffer.{Put};
ghost use Rattle.records.specs.Refusals.{number};

use flatten::entry::{ANSWER, flatten};
use records::decimal::put_decimal;
use records::fields::two;
use records::refusal::Refusal;
use records::write::{put_byte, put_bytes};

// The line of a refusal.
fn put_refused(out: &mut [u8], refusal: Refusal) -> usize
    ensures { Put out.old out.new (printed (refused (number refusal))) 0 result }
{
    let word = put_bytes(out, 0, b"refused ", 0, 8);
    let at = put_decimal(out, word, u16::from(refusal.number()));
    put_byte(out, at, b'\n')
}

// What is to be printed, at the front of the buffer, whose rest is as it was; and its length.
// The buffer has the bytes that its type says; a proof cannot tell that of a lent array, so the lender does.
pub fn desk(input: &[u8], out: &mut [u8; ANSWER]) -> usize
    requires { length out.old ≡ answer_bytes }
    ensures value { result ≡ length (desk_of input.now) }
    ensures out_after { out.new ≡ laid_over (accepted (desk_of input.now)) out.old }
{
    if input.len() < 2 {
        return put_refused(out, Refusal::BadFields);
    }
    let size = two(input, 0);
    if input.len() - 2 < size {
        return put_refused(out, Refusal::BadFields);
    }
    let end = 2 + size;
    match flatten(&input[2..end], &input[end..], out) {
        Ok(n) => n,
        Err(refusal) => put_refused(out, refusal),
    }
}
