// The faults of a field, by its section, the lowest number first.
ghost use Rattle.std.specs.Prelude.{◌||◌, ◌⊎◌, ◌≡◌, ℕ, ◌*◌, ◌≤◌, ◌<◌, ltb, length, take};
ghost use Rattle.std.proofs.Math.Option.{Option};
ghost use Rattle.definition.specs.Records as definition;
ghost use Rattle.definition.specs.Base.{all};
ghost use Rattle.definition.specs.Letters.{letter_r, letter_a, letter_v, letter_i};
ghost use Rattle.definition.specs.Records.{numbers, odd, not_above};
ghost use Rattle.definition.specs.Rule.{
  keys_ascend,
  elements_at,
  class_falls,
  head_fault,
  structure_fault,
  element_fault,
  map_fault,
  kind_fault,
  auxiliary_fault,
};
ghost use Rattle.records.specs.Iter.{fields_in};
ghost use Rattle.records.specs.Refusals.{fault_of};
ghost use Rattle.rule.specs.Elements.{named_by};
ghost use Rattle.rule.specs.Faults.{field_with, last_field, fault_at, Fits, Below, InStructure, name_key, row_check, name_check, check_of, section_by};
ghost use Rattle.rule.specs.Pairs.{pairs_in_bytes};

use crate::elements::parents_named;
use crate::ids::{
    ElId, FIELDS, LETTER_A, LETTER_I, LETTER_K, LETTER_M, LETTER_N, LETTER_R, LETTER_V, MAPS,
    NAME_BYTES, STRUCTURES,
};
use crate::known::Known;
use crate::name::{NameKind, numbers_before};
use crate::order::{Spot, first_not_above, name_not_above, results, row_not_above};
use crate::row::{RowKind, row_relation};
use records::contents::{bad_name, named, number};
use records::fields::num;
use records::refusal::Refusal;
use signature::ids::TypeId;
use signature::lookup::Signature;

// The sections whose fields are checked alike; S and E fields are checked where structures and elements are counted.
#[derive(Clone, Copy)]
pub enum SectionKind {
    Head,
    Row(RowKind),
    Name(NameKind),
    Map,
    Kind,
    Auxiliary,
}

// Is a content no row of numbers, or one of fewer than the least?
fn not_numbers(content: &[u8], least: usize) -> bool
    requires { least ≤ 2 }
    ensures { result ≡ (odd (length content.now) || ltb (length content.now) (2 * least)) }
{
    (content.len() & 1) == 1 || content.len() < 2 * least
}

// An N field: the unnamed index, and the name.
#[tactic(auto, unfolding(definition::specs::Rule::head_fault, definition::specs::Base::lowest))]
fn head_fault(content: &[u8]) -> Result<(), Refusal>
    ensures { (letter before : ℕ) (last : Option definition.Field) → fault_of result ≡ head_fault before last (field_with letter content.now) }
{
    if content.len() < 2 {
        return Err(Refusal::BadLength);
    }
    let (_, name) = content.split_at(2);
    if bad_name(name, 0, NAME_BYTES) {
        return Err(Refusal::BadName);
    }
    Ok(())
}

// An S field.
pub fn structure_fault(content: &[u8], before: usize) -> Result<(), Refusal>
    ensures result_value { (letter : ℕ) → fault_of result ≡ structure_fault before (field_with letter content.now) }
    ensures below { Below result before }
{
    structure_length_fault(content.len(), before)
}

// An S field, of whose content only the length is known.
#[tactic(auto, unfolding(definition::specs::Rule::structure_fault, definition::specs::Base::lowest), using(crate::proofs::Drawn::empty_by))]
pub fn structure_length_fault(len: usize, before: usize) -> Result<(), Refusal>
    ensures result_value { (f : definition.Field) → length f.content ≡ len → fault_of result ≡ structure_fault before f }
    ensures below { Below result before }
{
    if len != 0 {
        return Err(Refusal::BadLength);
    }
    if STRUCTURES <= before {
        return Err(Refusal::TooMany);
    }
    Ok(())
}

// An E field of the structure whose E fields a section holds: its number, type and parents.
#[tactic(auto, unfolding(definition::specs::Rule::element_fault, definition::specs::Rule::element_of, definition::specs::Base::lowest), using(crate::proofs::Drawn::behind_two, laws::proofs::Numbers::length_numbers))]
pub fn element_fault(sig: &Signature<'_>, section: &[u8], f: Spot<'_>) -> Result<(), Refusal>
    ensures result_value { (letter before : ℕ)
        → fault_of result ≡ fault_at (element_fault sig.now (named_by (fields_in section.now))) letter before f.entry }
    ensures fits { Fits result f.entry }
{
    let content = f.content;
    if not_numbers(content, 2) {
        return Err(Refusal::BadLength);
    }
    if FIELDS <= f.before {
        return Err(Refusal::TooMany);
    }
    let t = TypeId(number(content, 1));
    if sig.types() <= usize::from(t.0) {
        return Err(Refusal::Undeclared);
    }
    let (_, parents) = content.split_at(4);
    if !parents_named(section, parents) {
        return Err(Refusal::Undeclared);
    }
    if first_not_above(f, 1) {
        return Err(Refusal::NotAscending);
    }
    if parents.len() >> 1 != sig.type_parents(t) {
        return Err(Refusal::BadArity);
    }
    Ok(())
}

// An R or A field: its symbol and its elements, in a structure.
#[tactic(auto, unfolding(definition::specs::Rule::row_fault, definition::specs::Rule::row_of, definition::specs::Base::lowest), using(crate::proofs::Drawn::behind_one, laws::proofs::Numbers::length_numbers))]
fn row_fault(
    sig: &Signature<'_>,
    known: &Known<'_>,
    structure: usize,
    kind: RowKind,
    f: Spot<'_>,
) -> Result<(), Refusal>
    requires { structure < length known.now }
    ensures { (letter before : ℕ) → fault_of result ≡ fault_at (row_check sig.now kind (elements_at known.now structure)) letter before f.entry }
{
    let content = f.content;
    if not_numbers(content, 1 + results(kind)) {
        return Err(Refusal::BadLength);
    }
    if FIELDS <= f.before {
        return Err(Refusal::TooMany);
    }
    let rel = row_relation(kind, number(content, 0));
    if !sig.declares(rel) {
        return Err(Refusal::Undeclared);
    }
    let (_, els) = content.split_at(2);
    if !known.has_elements(structure, els) {
        return Err(Refusal::Undeclared);
    }
    if row_not_above(f, kind) {
        return Err(Refusal::NotAscending);
    }
    if els.len() >> 1 != sig.arity(rel) {
        return Err(Refusal::BadArity);
    }
    Ok(())
}

// Is a V not above the last by its name, or an I by its term number?
fn not_above(f: Spot<'_>, kind: NameKind) -> bool
    ensures { (letter before : ℕ) → result ≡ not_above (name_key kind) (last_field before f.entry.last) (field_with letter f.entry.content.now) }
{
    match kind {
        NameKind::Variable => name_not_above(f),
        NameKind::Identifier => first_not_above(f, 1),
    }
}

// A V or I field: its element, in a structure, and a name.
#[tactic(auto, unfolding(definition::specs::Rule::name_fault, definition::specs::Rule::name_of, definition::specs::Base::lowest))]
fn name_fault(
    known: &Known<'_>,
    structure: usize,
    kind: NameKind,
    f: Spot<'_>,
) -> Result<(), Refusal>
    requires { structure < length known.now }
    ensures { (letter before : ℕ) → fault_of result ≡ fault_at (name_check kind (elements_at known.now structure)) letter before f.entry }
{
    let content = f.content;
    let numbers = numbers_before(kind);
    if content.len() < 2 * numbers {
        return Err(Refusal::BadLength);
    }
    if FIELDS <= f.before {
        return Err(Refusal::TooMany);
    }
    if !known.has_element(structure, ElId(number(content, numbers - 1))) {
        return Err(Refusal::Undeclared);
    }
    if not_above(f, kind) {
        return Err(Refusal::NotAscending);
    }
    let (_, name) = content.split_at(2 * numbers);
    if bad_name(name, 1, NAME_BYTES) {
        return Err(Refusal::BadName);
    }
    Ok(())
}

// Is each key above the one before it?
fn keys_ascend(pairs: &[u8]) -> bool
    ensures { result ≡ keys_ascend (pairs_in_bytes pairs.now) }
{
    for p in 1..pairs.len() >> 2 {
        if num(pairs, 4 * p) <= num(pairs, 4 * p - 4) {
            return false;
        }
    }
    true
}

// Are the source and the target of a map or a kind structures that are known?
fn ends_named(known: &Known<'_>, content: &[u8]) -> bool
    requires { 4 ≤ length content.now }
    ensures { result ≡ all (λ (k : ℕ). ltb k (length known.now)) (take 2 (numbers content.now)) }
{
    let (ends, _) = content.split_at(4);
    named(ends, known.count())
}

// An M field: source, target, and pairs of key and image.
#[tactic(auto, unfolding(definition::specs::Rule::map_fault, definition::specs::Base::lowest))]
fn map_fault(known: &Known<'_>, f: Spot<'_>) -> Result<(), Refusal>
    ensures { (letter before : ℕ) → fault_of result ≡ fault_at (map_fault known.now) letter before f.entry }
{
    let content = f.content;
    if content.len() < 4 || (content.len() & 3) != 0 {
        return Err(Refusal::BadLength);
    }
    if MAPS <= f.before {
        return Err(Refusal::TooMany);
    }
    if !ends_named(known, content) {
        return Err(Refusal::Undeclared);
    }
    let source = usize::from(number(content, 0));
    let target = usize::from(number(content, 1));
    let (_, pairs) = content.split_at(4);
    if !known.has_pairs(source, target, pairs) {
        return Err(Refusal::Undeclared);
    }
    if first_not_above(f, 2) {
        return Err(Refusal::NotAscending);
    }
    if !keys_ascend(pairs) {
        return Err(Refusal::NotAscending);
    }
    Ok(())
}

// A K field: source, target, and a byte for the kind.
#[tactic(auto, unfolding(definition::specs::Rule::kind_fault, definition::specs::Base::lowest))]
fn kind_fault(known: &Known<'_>, f: Spot<'_>) -> Result<(), Refusal>
    ensures { (letter before : ℕ) → fault_of result ≡ fault_at (kind_fault known.now) letter before f.entry }
{
    let content = f.content;
    if content.len() != 5 {
        return Err(Refusal::BadLength);
    }
    if MAPS <= f.before {
        return Err(Refusal::TooMany);
    }
    if !ends_named(known, content) {
        return Err(Refusal::Undeclared);
    }
    if 3 < content[4] {
        return Err(Refusal::Undeclared);
    }
    if first_not_above(f, 2) {
        return Err(Refusal::NotAscending);
    }
    Ok(())
}

// Is the class below the last one?
#[tactic(auto, unfolding(definition::specs::Rule::auxiliary_of))]
fn class_falls(f: Spot<'_>) -> bool
    requires { 1 ≤ length f.content.now }
    ensures { (letter before : ℕ) → result ≡ class_falls (last_field before f.entry.last) (field_with letter f.entry.content.now) }
{
    match f.last {
        Some(last) => !last.is_empty() && f.content[0] < last[0],
        None => false,
    }
}

// An X field: a byte for the class, and a structure.
#[tactic(auto, unfolding(definition::specs::Rule::auxiliary_fault, definition::specs::Rule::auxiliary_of, definition::specs::Base::lowest))]
fn auxiliary_fault(known: &Known<'_>, f: Spot<'_>) -> Result<(), Refusal>
    ensures { (letter before : ℕ) → fault_of result ≡ fault_at (auxiliary_fault known.now) letter before f.entry }
{
    let content = f.content;
    if content.len() != 3 {
        return Err(Refusal::BadLength);
    }
    if MAPS <= f.before {
        return Err(Refusal::TooMany);
    }
    if 2 < content[0] {
        return Err(Refusal::Undeclared);
    }
    let (_, structure) = content.split_at(1);
    if known.count() <= usize::from(number(structure, 0)) {
        return Err(Refusal::Undeclared);
    }
    if class_falls(f) {
        return Err(Refusal::NotAscending);
    }
    Ok(())
}

// A field of a section, where the elements of some structures are known; R, A, V and I stand in the last of them.
// One call serves R and A, one V and I, so that each check is compiled into this function.
pub fn field_fault(
    sig: &Signature<'_>,
    known: &Known<'_>,
    kind: SectionKind,
    f: Spot<'_>,
) -> Result<(), Refusal>
    requires { InStructure kind (length known.now) }
    ensures { (letter before : ℕ) → fault_of result ≡ fault_at (check_of sig.now known.now kind) letter before f.entry }
{
    match kind {
        SectionKind::Head => head_fault(f.content),
        SectionKind::Row(rows) => row_fault(sig, known, known.count() - 1, rows, f),
        SectionKind::Name(names) => name_fault(known, known.count() - 1, names, f),
        SectionKind::Map => map_fault(known, f),
        SectionKind::Kind => kind_fault(known, f),
        SectionKind::Auxiliary => auxiliary_fault(known, f),
    }
}

// The section whose fields are checked as a letter's are; those of any other byte are checked as X fields.
#[tactic(auto, unfolding(crate::specs::Faults::section_by))]
pub fn section_by(letter: u8) -> SectionKind
    ensures { result ≡ section_by letter }
{
    match letter {
        LETTER_N => SectionKind::Head,
        LETTER_R => SectionKind::Row(RowKind::Predicate),
        LETTER_A => SectionKind::Row(RowKind::Function),
        LETTER_V => SectionKind::Name(NameKind::Variable),
        LETTER_I => SectionKind::Name(NameKind::Identifier),
        LETTER_M => SectionKind::Map,
        LETTER_K => SectionKind::Kind,
        _ => SectionKind::Auxiliary,
    }
}

// A field by its letter, which may be any byte.
pub fn field_fault_by_letter(
    sig: &Signature<'_>,
    known: &Known<'_>,
    letter: u8,
    f: Spot<'_>,
) -> Result<(), Refusal>
    requires { letter ≡ letter_r ⊎ letter ≡ letter_a ⊎ letter ≡ letter_v ⊎ letter ≡ letter_i → 1 ≤ length known.now }
    ensures { (own before : ℕ) → fault_of result ≡ fault_at (check_of sig.now known.now (section_by letter)) own before f.entry }
{
    field_fault(sig, known, section_by(letter), f)
}
