// Writers. Each writes at a place of a buffer what fits there, counts it in any case, and answers where it ends.
// A count stops at COUNT_LIMIT, just above what an answer may have, so no sum can pass the largest number.
ghost use Rattle.std.specs.Prelude.{◌∷◌, [], ◌≡◌, ◌+◌, ◌≤◌, min, length, drop};
ghost use Rattle.std.proofs.Math.Seq.{paste};
ghost use Rattle.definition.specs.Writer.{two_bytes};
ghost use Rattle.records.specs.Places.{stretch};
ghost use Rattle.records.specs.Buffer.{Put, capped, count_limit, head_bytes};

pub const COUNT_LIMIT: usize = 65536;

// Where a part of k bytes from at on ends.
pub fn past(at: usize, k: usize) -> usize
    requires { (at ≤ count_limit) × (k ≤ count_limit) }
    ensures { result ≡ capped (at + k) }
{
    (at + k).min(COUNT_LIMIT)
}

// One byte.
pub fn put_byte(out: &mut [u8], at: usize, b: u8) -> usize
    requires { at ≤ count_limit }
    ensures { Put out.old out.new (b ∷ []) at result }
{
    let end = past(at, 1);
    if at < out.len() {
        out[at] = b;
        return end;
    }
    end
}

// A number as two bytes, the high one first. By a shift and a mask, since std's `to_be_bytes` divides.
pub fn put_num(out: &mut [u8], at: usize, v: u16) -> usize
    requires { at ≤ count_limit }
    ensures { Put out.old out.new (two_bytes v) at result }
{
    let end = past(at, 2);
    if at + 2 <= out.len() {
        out[at] = (v >> 8) as u8;
        out[at + 1] = (v & 255) as u8;
        return end;
    }
    end
}

// What stands before a field's content.
pub fn put_field_head(out: &mut [u8], at: usize, letter: u8, len: u16) -> usize
    requires { at ≤ count_limit }
    ensures { Put out.old out.new (head_bytes letter len) at result }
{
    let behind = put_byte(out, at, letter);
    put_num(out, behind, len)
}

// The bytes of a stretch of another slice, stored one behind the other. A loop, since `copy_from_slice` would ask the C library for memmove,
// and the library asks for memset alone.
fn copy_bytes(out: &mut [u8], at: usize, s: &[u8], start: usize, len: usize)
    requires { (at + len ≤ length out.old) × (start + len ≤ length s.now) }
    ensures { out.new ≡ paste out.old at (drop start s.now) len }
{
    for i in 0..len {
        out[at + i] = s[start + i];
    }
}

// A stretch of another slice: all of it where it fits, so that room is asked for once.
pub fn put_bytes(out: &mut [u8], from: usize, s: &[u8], start: usize, len: usize) -> usize
    requires { (from ≤ count_limit) × (start + len ≤ length s.now) }
    ensures { Put out.old out.new (stretch s.now start len) from result }
{
    if COUNT_LIMIT - from < len {
        return COUNT_LIMIT;
    }
    let end = from + len;
    if end <= out.len() {
        copy_bytes(out, from, s, start, len);
        return end;
    }
    end
}
