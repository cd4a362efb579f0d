// What a content says: its numbers, a name, and whether two are the same or which is before the other.
ghost use Rattle.std.specs.Prelude.{◌≡◌, ℕ, ◌/◌, ◌<◌, ltb, length};
ghost use Rattle.definition.specs.Base.{less, same_list, all};
ghost use Rattle.definition.specs.Records.{numbers, number_at, bad_name};

use crate::fields::num;
use crate::names::all_name_bytes;

// The number at a place of a content.
#[tactic(auto, unfolding(definition::specs::Records::number_at), using(crate::proofs::Numbers::numbers_at))]
pub fn number(content: &[u8], place: usize) -> u16
    requires { place < length content.now / 2 }
    ensures { result ≡ number_at place content.now }
{
    num(content, 2 * place)
}

// Is each number of a content below a limit? An odd byte at the end is no number. A loop, since std's `as_chunks` divides.
pub fn named(content: &[u8], limit: usize) -> bool
    ensures { result ≡ all (λ (n : ℕ). ltb n limit) (numbers content.now) }
{
    for place in 0..content.len() >> 1 {
        if limit <= usize::from(number(content, place)) {
            return false;
        }
    }
    true
}

// Is it no name of at least the shortest and at most the longest length?
#[tactic(auto, unfolding(definition::specs::Records::bad_name), using(crate::proofs::Slices::all_is))]
pub fn bad_name(name: &[u8], shortest: usize, longest: usize) -> bool
    ensures { result ≡ bad_name shortest longest name.now }
{
    name.len() < shortest || longest < name.len() || !all_name_bytes(name)
}

// Are they the same bytes? A loop, since std's `==` of slices divides.
#[tactic(auto, using(crate::proofs::Parts::same_sizes, crate::proofs::Parts::same_on, crate::proofs::Parts::same_no, crate::proofs::Parts::same_end))]
pub fn same_bytes(a: &[u8], b: &[u8]) -> bool
    ensures { result ≡ same_list a.now b.now }
{
    if a.len() != b.len() {
        return false;
    }
    for i in 0..a.len() {
        if a[i] != b[i] {
            return false;
        }
    }
    true
}

// Are the bytes of one before those of the other? A prefix is. A loop, since `<` of two slices compares some bytes twice, which made
// reading a rule a sixth slower.
#[tactic(auto, using(crate::proofs::OnContents::less_same, crate::proofs::OnContents::less_differ, crate::proofs::OnContents::less_over))]
pub fn less_bytes(a: &[u8], b: &[u8]) -> bool
    ensures { result ≡ less a.now b.now }
{
    for i in 0..a.len().min(b.len()) {
        if a[i] != b[i] {
            return a[i] < b[i];
        }
    }
    a.len() < b.len()
}

// Are the numbers of one before those of the other? With the high byte first they compare like their bytes. An odd byte at the end is no
// number.
#[tactic(auto, using(crate::proofs::OnContents::numbers_less))]
pub fn less_numbers(a: &[u8], b: &[u8]) -> bool
    ensures { result ≡ less (numbers a.now) (numbers b.now) }
{
    less_bytes(&a[..(a.len() >> 1) * 2], &b[..(b.len() >> 1) * 2])
}
