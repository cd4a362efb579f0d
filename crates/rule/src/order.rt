// The order of the fields of a letter: each against the last one before it.
ghost use Rattle.std.specs.Prelude.{◌≡◌, ℕ, ◌≤◌, take, drop};
ghost use Rattle.definition.specs.Records as definition;
ghost use Rattle.definition.specs.Records.{numbers, not_above};
ghost use Rattle.definition.specs.Rule.{row_key};
ghost use Rattle.rule.specs.Faults.{field_with, last_field, results_of};

use crate::row::RowKind;
use records::contents::{less_bytes, less_numbers};

// A field to be checked: its content, how many fields of its letter came before it, and the content of the last of them.
#[derive(Clone, Copy)]
pub struct Spot<'a> {
    pub content: &'a [u8],
    pub before: usize,
    pub last: Option<&'a [u8]>,
}

// How many results a row has.
pub fn results(kind: RowKind) -> usize
    ensures { result ≡ results_of kind }
{
    match kind {
        RowKind::Predicate => 0,
        RowKind::Function => 1,
    }
}

// By the first numbers, so many of them.
#[tactic(auto, using(crate::proofs::Keys::first_key))]
pub fn first_not_above(f: Spot<'_>, count: usize) -> bool
    requires { count ≤ 2 }
    ensures { (letter before : ℕ) → result ≡ not_above (λ (g : definition.Field). take count (numbers g.content))
        (last_field before f.entry.last) (field_with letter f.entry.content.now) }
{
    let Some(last) = f.last else {
        return false;
    };
    let size = 2 * count;
    !less_numbers(
        &last[..last.len().min(size)],
        &f.content[..f.content.len().min(size)],
    )
}

// By all numbers but the results.
#[tactic(auto, unfolding(definition::specs::Rule::row_key), using(crate::proofs::Keys::front_key))]
pub fn row_not_above(f: Spot<'_>, kind: RowKind) -> bool
    ensures { (letter before : ℕ) → result ≡ not_above (row_key (results_of kind))
        (last_field before f.entry.last) (field_with letter f.entry.content.now) }
{
    let Some(last) = f.last else {
        return false;
    };
    let cut = 2 * results(kind);
    !less_numbers(
        &last[..last.len().saturating_sub(cut)],
        &f.content[..f.content.len().saturating_sub(cut)],
    )
}

// By the name behind the first number.
#[tactic(auto, using(crate::proofs::TailContents::behind))]
pub fn name_not_above(f: Spot<'_>) -> bool
    ensures { (letter before : ℕ) → result ≡ not_above (λ (g : definition.Field). drop 2 g.content)
        (last_field before f.entry.last) (field_with letter f.entry.content.now) }
{
    let Some(last) = f.last else {
        return false;
    };
    let (_, name) = f.content.split_at(f.content.len().min(2));
    let (_, before) = last.split_at(last.len().min(2));
    !less_bytes(before, name)
}
