// Reading a rule: the pass along its letters, then the faults of its fields, section by section.
ghost use Rattle.std.specs.Prelude.{List, IfOk, ℕ, ◌≡◌, ◌+◌, ◌≤◌, ◌<◌, length, get_or};
ghost use Rattle.std.proofs.Math.Option.{none};
ghost use Rattle.definition.specs.Letters.{letter_n, letter_e};
ghost use Rattle.definition.specs.Limits.{structure_limit, rule_bytes};
ghost use Rattle.definition.specs.Records as definition;
ghost use Rattle.definition.specs.Records.{with_letter, fault_from, fault_among};
ghost use Rattle.definition.specs.Rule.{named_elements, head_fault, structure_fault, element_fault, body_fault, structures_fault, named_in, read_rule};
ghost use Rattle.records.specs.Iter.{fields_in};
ghost use Rattle.records.specs.Places.{Run};
ghost use Rattle.records.specs.Refusals.{fault_of, outcome_by};
ghost use Rattle.rule.specs.Views.{RuleBy};
ghost use Rattle.rule.specs.Layout.{rule_index, place_s, section_from};
ghost use Rattle.rule.specs.Lookup.{rule_at};
ghost use Rattle.rule.specs.Elements as elements;
ghost use Rattle.rule.specs.Elements.{element_numbers, numbers_in, named_by};
ghost use Rattle.rule.specs.Faults.{Below, InStructure, check_of, rest_fault, tail_fault};
ghost use Rattle.rule.specs.Answers.{
  HeadAt,
  Bodied,
  Structured,
  Tailed,
  Stored,
  Holds,
  AllStored,
  AllHold,
  Indexed,
};

use crate::faults::{SectionKind, element_fault, field_fault, structure_fault};
use crate::ids::{
    BEHIND_I, COUNTS_FROM, ELEMENTS_FROM, FIELDS, LETTERS, RULE_BYTES, RULE_INDEX, SECTION_A,
    SECTION_E, SECTION_I, SECTION_K, SECTION_M, SECTION_N, SECTION_R, SECTION_S, SECTION_V,
    SECTION_X,
};
use crate::known::Known;
use crate::name::NameKind;
use crate::order::Spot;
use crate::pass::pass;
use crate::row::RowKind;
use crate::sections::{Section, bound, part_at, part_of, section_at};
use crate::views::Rule;
use records::iter::Fields;
use records::refusal::Refusal;
use signature::lookup::Signature;

// The first fault of the fields of a section, front to back.
fn check_section(
    sig: &Signature<'_>,
    known: &Known<'_>,
    kind: SectionKind,
    part: &[u8],
) -> Result<(), Refusal>
    requires { InStructure kind (length known.now) }
    ensures { fault_of result ≡ fault_from (check_of sig.now known.now kind) 0 none (fields_in part.now) }
{
    let mut last = None;
    for (before, f) in Fields::new(part).enumerate() {
        let spot = Spot {
            content: f.content,
            before,
            last,
        };
        field_fault(sig, known, kind, spot)?;
        last = Some(f.content);
    }
    Ok(())
}

// The first fault of the E fields of structure k; their positions and their number go into the index.
fn check_elements(
    sig: &Signature<'_>,
    s: &[u8],
    index: &mut [u16; RULE_INDEX],
    k: usize,
    section: Section,
) -> Result<(), Refusal>
    requires s_len_bound { length s.now ≤ rule_bytes }
    requires index_len { length index.old ≡ rule_index }
    requires k_lt_structure_limit { k < structure_limit }
    ensures checked { (fs : List definition.Field) → Run s.now section.from section.to fs
        → fault_of result ≡ fault_from (element_fault sig.now (named_by fs)) 0 none fs }
    ensures held { (fs : List definition.Field) → Run s.now section.from section.to fs → Holds result s.now index.new k fs }
    ensures stored { Stored result s.now index.old index.new k }
    ensures index_len_2 { length index.new ≡ rule_index }
{
    let part = part_of(s, section);
    let mut fields = Fields::new(part);
    let mut left = part;
    let mut count: usize = 0;
    let mut last = None;
    while let Some(f) = fields.next() {
        let spot = Spot {
            content: f.content,
            before: count,
            last,
        };
        element_fault(sig, part, spot)?;
        index[ELEMENTS_FROM + FIELDS * k + count] = (section.to - left.len()) as u16;
        count += 1;
        last = Some(f.content);
        left = fields.rest();
    }
    index[COUNTS_FROM + k] = count as u16;
    Ok(())
}

// The first fault of the S field of structure k.
fn check_head(s: &[u8], index: &[u16; RULE_INDEX], k: usize) -> Result<(), Refusal>
    requires { k ≤ structure_limit }
    ensures result_value { (f : definition.Field)
        → HeadAt s.now (section_from index.now k place_s) f → fault_of result ≡ structure_fault k f }
    ensures below { Below result k }
{
    let at = bound(index, LETTERS * k + SECTION_S);
    let (_, left) = s.split_at(at.min(s.len()));
    let mut fields = Fields::new(left);
    let Some(f) = fields.next() else {
        return Err(Refusal::BadFields);
    };
    structure_fault(f.content, k)
}

// The first fault of the R, A, V and I fields of structure k, whose elements are known.
fn check_rest(
    sig: &Signature<'_>,
    s: &[u8],
    index: &[u16; RULE_INDEX],
    k: usize,
) -> Result<(), Refusal>
    requires k_lt_structure_limit { k < structure_limit }
    requires known { elements.Known s.now index.now (k + 1) }
    ensures { (body : List definition.Field) → Bodied s.now index.now k body
        → element_numbers s.now index.now k ≡ named_elements body
        → fault_of result ≡ rest_fault sig.now (named_elements body) body }
{
    let at = LETTERS * k;
    let known = Known {
        bytes: s,
        index,
        structures: k + 1,
    };
    let rows = part_at(s, index, at + SECTION_R);
    check_section(sig, &known, SectionKind::Row(RowKind::Predicate), rows)?;
    // Many structures have no A, V or I fields; then no section is gone into for them.
    if bound(index, at + SECTION_A) == bound(index, at + BEHIND_I) {
        return Ok(());
    }
    let rows = part_at(s, index, at + SECTION_A);
    check_section(sig, &known, SectionKind::Row(RowKind::Function), rows)?;
    let names = part_at(s, index, at + SECTION_V);
    check_section(sig, &known, SectionKind::Name(NameKind::Variable), names)?;
    // Not handed on whole: the processor waits where it reads two bytes back of which only one was just written.
    let names = part_at(s, index, at + SECTION_I);
    check_section(sig, &known, SectionKind::Name(NameKind::Identifier), names)?;
    Ok(())
}

// The first fault of the fields of structure k behind its S.
fn check_body(
    sig: &Signature<'_>,
    s: &[u8],
    index: &mut [u16; RULE_INDEX],
    k: usize,
) -> Result<(), Refusal>
    requires s_len_bound { length s.now ≤ rule_bytes }
    requires index_len { length index.old ≡ rule_index }
    requires k_lt_structure_limit { k < structure_limit }
    requires known { elements.Known s.now index.old k }
    ensures result_value { (body : List definition.Field) → Bodied s.now index.old k body
        → fault_of result ≡ body_fault sig.now (named_elements body) body }
    ensures holds { (body : List definition.Field) → Bodied s.now index.old k body
        → Holds result s.now index.new k (with_letter letter_e body) }
    ensures stored { Stored result s.now index.old index.new k }
    ensures index_len_2 { length index.new ≡ rule_index }
{
    let section = section_at(index, LETTERS * k + SECTION_E);
    check_elements(sig, s, index, k, section)?;
    check_rest(sig, s, index, k)?;
    Ok(())
}

// The first fault of the N field; nothing is known yet.
fn check_name(sig: &Signature<'_>, s: &[u8], index: &[u16; RULE_INDEX]) -> Result<(), Refusal>
    ensures { (fs : List definition.Field) → Run s.now (get_or index.now 0 0) (get_or index.now 1 0) (with_letter letter_n fs)
        → fault_of result ≡ fault_among letter_n head_fault fs }
{
    let known = Known {
        bytes: s,
        index,
        structures: 0,
    };
    let head = part_at(s, index, SECTION_N);
    check_section(sig, &known, SectionKind::Head, head)
}

// The first fault of so many structures.
fn check_structures(
    sig: &Signature<'_>,
    s: &[u8],
    index: &mut [u16; RULE_INDEX],
    structures: usize,
) -> Result<(), Refusal>
    requires s_len_bound { length s.now ≤ rule_bytes }
    requires index_len { length index.old ≡ rule_index }
    requires structures_bound { structures ≤ structure_limit + 1 }
    ensures result_value { (bs : List definition.Block) → Structured s.now index.old structures bs
        → fault_of result ≡ structures_fault sig.now 0 bs }
    ensures all_hold { (bs : List definition.Block) → Structured s.now index.old structures bs
        → AllHold result s.now index.new structures bs }
    ensures all_stored { AllStored result s.now index.old index.new structures }
    ensures index_len_2 { length index.new ≡ rule_index }
{
    for k in 0..structures {
        check_head(s, index, k)?;
        check_body(sig, s, index, k)?;
    }
    Ok(())
}

// The first fault of the M, K and X fields behind so many structures, whose elements are known.
fn check_tail(
    sig: &Signature<'_>,
    s: &[u8],
    index: &[u16; RULE_INDEX],
    structures: usize,
) -> Result<(), Refusal>
    requires { elements.Known s.now index.now structures }
    ensures { (fs : List definition.Field) → Tailed s.now index.now fs
        → numbers_in s.now index.now structures ≡ named_in fs → fault_of result ≡ tail_fault fs }
{
    let known = Known {
        bytes: s,
        index,
        structures,
    };
    let maps = part_at(s, index, SECTION_M);
    check_section(sig, &known, SectionKind::Map, maps)?;
    let kinds = part_at(s, index, SECTION_K);
    check_section(sig, &known, SectionKind::Kind, kinds)?;
    let auxiliaries = part_at(s, index, SECTION_X);
    check_section(sig, &known, SectionKind::Auxiliary, auxiliaries)?;
    Ok(())
}

// The index has all its entries. This is said to proofs, which know it of a lent array only where it is lent on as a slice; nothing runs.
fn all_entries(index: &[u16; RULE_INDEX])
    ensures { length index.now ≡ rule_index }
{
    let _entries: &[u16] = index;
}

// How many structures the rule has, or why it is refused. Where it is accepted, the index holds where its sections start and where its elements
// stand. Where it is refused, the entries of the index are left free: any may have been written, and only their number holds.
pub fn index_rule(
    sig: &Signature<'_>,
    s: &[u8],
    index: &mut [u16; RULE_INDEX],
) -> Result<usize, Refusal>
    ensures value { outcome_by (λ (n : ℕ). rule_at s.now) result ≡ read_rule sig.now s.now }
    ensures usable { IfOk result (λ (n : ℕ). Indexed sig.now s.now index.new n) }
    ensures index_len_unchanged { length index.new ≡ length index.old }
{
    all_entries(index);
    if RULE_BYTES < s.len() {
        return Err(Refusal::TooLong);
    }
    let p = pass(s, index);
    let structures = p.structures;
    check_name(sig, s, index)?;
    check_structures(sig, s, index, structures)?;
    check_tail(sig, s, index, structures)?;
    if !p.whole {
        return Err(Refusal::BadFields);
    }
    Ok(structures)
}

// The rule, or why it is refused. The index is lent for as long as the rule is used: it holds where the rule's sections start and where its
// elements stand. A caller that wants its index back at once takes `index_rule`.
pub fn read_rule<'a>(
    sig: &'a Signature<'a>,
    s: &'a [u8],
    index: &'a mut [u16; RULE_INDEX],
) -> Result<Rule<'a>, Refusal>
    ensures value { outcome_by (λ (x : RuleBy). x.rule) result ≡ read_rule sig.now s.now }
    ensures signature_kept { IfOk result (λ (x : RuleBy). x.sig ≡ sig.now) }
{
    let structures = index_rule(sig, s, index)?;
    sig.small_arities();
    Ok(Rule {
        sig,
        bytes: s,
        index,
        structures,
    })
}
