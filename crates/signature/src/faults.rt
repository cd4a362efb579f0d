// The faults of a T, P or F field, the lowest number first.
ghost use Rattle.std.specs.Prelude.{◌≡◌, ℕ, ◌≤◌, length, drop};
ghost use Rattle.std.proofs.Math.Option.{Option};
ghost use Rattle.definition.specs.Records.{Field, numbers};
ghost use Rattle.definition.specs.Signature.{type_fault, symbol_fault};
ghost use Rattle.records.specs.Refusals.{fault_of};
ghost use Rattle.signature.specs.Faults.{columns_fault, check_of, letter_of, declaration};

use crate::ids::{COLUMNS, LETTER_P, LETTER_T, PARENTS, SYMBOLS, SymbolKind};
use records::contents::named;
use records::refusal::Refusal;

// What T, P and F share: 4 past a limit, 5 at a number that names no type.
#[tactic(auto, unfolding(crate::specs::Faults::columns_fault, definition::specs::Base::lowest), using(laws::proofs::Numbers::length_numbers))]
fn columns_fault(columns: &[u8], most: usize, types: usize, before: usize) -> Result<(), Refusal>
    ensures { fault_of result ≡ columns_fault most types before (numbers columns.now) }
{
    if SYMBOLS <= before || most < columns.len() >> 1 {
        return Err(Refusal::TooMany);
    }
    if !named(columns, types) {
        return Err(Refusal::Undeclared);
    }
    Ok(())
}

// A T field: its parents.
#[tactic(auto, unfolding(definition::specs::Signature::type_fault, crate::specs::Faults::columns_fault, definition::specs::Base::lowest))]
fn type_fault(content: &[u8], types: usize, before: usize) -> Result<(), Refusal>
    ensures { (letter : ℕ) (last : Option Field) → fault_of result ≡ type_fault types before last (declaration letter content.now) }
{
    if (content.len() & 1) == 1 {
        return Err(Refusal::BadLength);
    }
    columns_fault(content, PARENTS, types, before)
}

// A P or F field: a byte that counts the parents, then the columns. Of an F (one result) the byte leaves a codomain.
#[tactic(auto, unfolding(definition::specs::Signature::symbol_fault, definition::specs::Base::lowest), using(crate::proofs::Drawn::columns_half))]
fn symbol_fault(content: &[u8], results: usize, types: usize, before: usize) -> Result<(), Refusal>
    requires { results ≤ 1 }
    ensures { (letter : ℕ) (last : Option Field) → fault_of result ≡ symbol_fault results types before last (declaration letter content.now) }
{
    if (content.len() & 1) != 1 {
        return Err(Refusal::BadLength);
    }
    if content.len() >> 1 < usize::from(content[0]) + results {
        return Err(Refusal::BadLength);
    }
    columns_fault(&content[1..], COLUMNS, types, before)
}

// A field by its letter: T, P, or any other, which is taken as F.
pub fn field_fault_by_letter(
    letter: u8,
    content: &[u8],
    types: usize,
    before: usize,
) -> Result<(), Refusal>
    ensures { (last : Option Field) → fault_of result ≡ check_of letter types before last (declaration letter content.now) }
{
    match letter {
        LETTER_T => type_fault(content, types, before),
        LETTER_P => symbol_fault(content, 0, types, before),
        _ => symbol_fault(content, 1, types, before),
    }
}

// A field that declares a symbol.
pub fn field_fault(
    kind: SymbolKind,
    content: &[u8],
    types: usize,
    before: usize,
) -> Result<(), Refusal>
    ensures { (last : Option Field) → fault_of result ≡ check_of (letter_of kind) types before last (declaration (letter_of kind) content.now) }
{
    field_fault_by_letter(kind.letter(), content, types, before)
}
