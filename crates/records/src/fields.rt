// Fields of a record: a letter, a two-byte length, content.
ghost use Rattle.std.specs.Prelude.{◌≡◌, ◌+◌, ◌≤◌, ◌<◌, length};
ghost use Rattle.records.specs.Places.{two_at, field_at, Ahead};

// A field that stands in a record: its letter, where its content starts and how long it is, where the next field starts.
#[derive(Clone, Copy)]
pub struct Field {
    pub letter: u8,
    pub start: usize,
    pub len: usize,
    pub next: usize,
}

// The two-byte number at a position, high byte first.
pub fn num(s: &[u8], at: usize) -> u16
    requires { at + 2 ≤ length s.now }
    ensures { result ≡ two_at s.now at }
{
    u16::from_be_bytes([s[at], s[at + 1]])
}

// The same as a length or a place.
pub fn two(s: &[u8], at: usize) -> usize
    requires { at + 2 ≤ length s.now }
    ensures value { result ≡ two_at s.now at }
    ensures upper_bound { result < 65536 }
{
    usize::from(num(s, at))
}

// The field that starts at a position; none where it passes the end.
pub fn read_field(s: &[u8], at: usize) -> Option<Field>
    ensures value { result ≡ field_at s.now at }
    ensures ahead { Ahead result at (length s.now) }
{
    if s.len().saturating_sub(at) < 3 {
        return None;
    }
    let len = two(s, at + 1);
    let start = at + 3;
    if s.len() - start < len {
        return None;
    }
    Some(Field {
        letter: s[at],
        start,
        len,
        next: start + len,
    })
}
