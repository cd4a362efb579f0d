// The faults of a G, W, U, B or H field, by its content, the lowest number first.
ghost use Rattle.std.specs.Prelude.{◌≡◌, ℕ, ◌<◌, length};
ghost use Rattle.std.proofs.Math.Option.{Option};
ghost use Rattle.definition.specs.Base.{has};
ghost use Rattle.definition.specs.Records.{Field};
ghost use Rattle.definition.specs.Signature.{Signature, symbol_count};
ghost use Rattle.definition.specs.Group.{title_fault, variable_fault, flat_rule_fault, statement_fault};
ghost use Rattle.records.specs.Refusals.{fault_of};
ghost use Rattle.signature.specs.Relations.{kind_of, number_of};
ghost use Rattle.group.specs.Sections.{letter_of, kinds_of, field_with};
ghost use Rattle.group.specs.Answers.{columns_differ};

use crate::ids::{LETTER_B, NAME_AT, NAME_BYTES, RULES, Side, VARIABLES, VARS_AT};
use records::contents::{bad_name, named, number};
use records::fields::num;
use records::refusal::Refusal;
use signature::ids::{EQUALITY, FUNC_DOMAIN, FUNCTION, MEMBER, PREDICATE, Relation, TYPE_SET};
use signature::lookup::{Signature, relation};

// A G field: its name.
#[tactic(auto, unfolding(definition::specs::Group::title_fault, definition::specs::Base::lowest))]
pub fn title_fault(name: &[u8]) -> Result<(), Refusal>
    ensures { (letter before : ℕ) (last : Option Field)
        → fault_of result ≡ title_fault before last (field_with letter name.now) }
{
    if bad_name(name, 1, NAME_BYTES) {
        return Err(Refusal::BadName);
    }
    Ok(())
}

// A W field: a type, then a name.
#[tactic(auto, unfolding(definition::specs::Group::variable_fault, definition::specs::Group::variable_of, definition::specs::Base::lowest))]
pub fn variable_fault(content: &[u8], types: usize, before: usize) -> Result<(), Refusal>
    ensures { (sig : Signature) (letter : ℕ) (last : Option Field) → length sig.types ≡ types
        → fault_of result ≡ variable_fault sig before last (field_with letter content.now) }
{
    if content.len() < NAME_AT {
        return Err(Refusal::BadLength);
    }
    if VARIABLES <= before {
        return Err(Refusal::TooMany);
    }
    if types <= usize::from(number(content, 0)) {
        return Err(Refusal::Undeclared);
    }
    let (_, name) = content.split_at(NAME_AT);
    if bad_name(name, 1, NAME_BYTES) {
        return Err(Refusal::BadName);
    }
    Ok(())
}

// A U field: its name.
#[tactic(auto, unfolding(definition::specs::Group::flat_rule_fault, definition::specs::Base::lowest))]
pub fn rule_fault(name: &[u8], before: usize) -> Result<(), Refusal>
    ensures { (letter : ℕ) → fault_of result ≡ flat_rule_fault before (field_with letter name.now) }
{
    if RULES <= before {
        return Err(Refusal::TooMany);
    }
    if bad_name(name, 1, NAME_BYTES) {
        return Err(Refusal::BadName);
    }
    Ok(())
}

// May a statement of a kind stand in a field of a letter, B or any other, which is taken as H? The kind is a byte of the record,
// which may be none that there is.
#[tactic(auto, unfolding(definition::specs::Base::any, definition::specs::Base::has))]
fn may_state(letter: u8, kind: u8) -> bool
    ensures { result ≡ has kind (kinds_of letter) }
{
    match kind {
        PREDICATE | FUNCTION | MEMBER | EQUALITY => true,
        TYPE_SET => letter == LETTER_B,
        FUNC_DOMAIN => letter != LETTER_B,
        _ => false,
    }
}

// Does the number of columns differ from the arity? A member of a parentless type has one column, and is no relation.
#[tactic(auto, using(crate::proofs::Drawn::one_column))]
fn bad_columns(sig: &Signature<'_>, rel: Relation, columns: usize) -> bool
    requires rel_bound { number_of rel < symbol_count sig.now (kind_of rel) }
    ensures { result ≡ columns_differ sig.now (kind_of rel) (number_of rel) columns }
{
    columns != sig.arity(rel) || (matches!(rel, Relation::Member(_)) && columns == 1)
}

// A field of statements by its letter, B or any other, which is taken as H: a byte for the kind, the symbol, the variables.
#[tactic(auto, using(crate::proofs::Drawn::statement_tests))]
pub fn statement_fault_by_letter(
    sig: &Signature<'_>,
    letter: u8,
    content: &[u8],
    variables: usize,
) -> Result<(), Refusal>
    ensures { (before : ℕ) (last : Option Field) → fault_of result
        ≡ statement_fault sig.now (kinds_of letter) variables before last (field_with letter content.now) }
{
    if (content.len() & 1) != 1 || content.len() < VARS_AT {
        return Err(Refusal::BadLength);
    }
    let kind = content[0];
    if !may_state(letter, kind) {
        return Err(Refusal::Undeclared);
    }
    let rel = relation(kind, num(content, 1));
    let (_, vars) = content.split_at(VARS_AT);
    if !sig.declares(rel) || !named(vars, variables) {
        return Err(Refusal::Undeclared);
    }
    if bad_columns(sig, rel, vars.len() >> 1) {
        return Err(Refusal::BadArity);
    }
    Ok(())
}

// A B or H field.
pub fn statement_fault(
    sig: &Signature<'_>,
    side: Side,
    content: &[u8],
    variables: usize,
) -> Result<(), Refusal>
    ensures { (before : ℕ) (last : Option Field) → fault_of result
        ≡ statement_fault sig.now
        (kinds_of (letter_of side)) variables before last (field_with (letter_of side) content.now) }
{
    statement_fault_by_letter(sig, side.letter(), content, variables)
}
