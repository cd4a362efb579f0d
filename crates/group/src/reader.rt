// Reading a group: the part before the first field that draws 2, then the faults of its fields, front to back.
ghost use Rattle.std.specs.Prelude.{IfOk, ◌≡◌, List, ◌∷◌, ℕ, ◌+◌, ◌≤◌, ◌<◌, length};
ghost use Rattle.std.proofs.Math.Option.{none};
ghost use Rattle.definition.specs.Limits.{group_bytes};
ghost use Rattle.definition.specs.Records as definition;
ghost use Rattle.definition.specs.Records.{follows};
ghost use Rattle.definition.specs.Signature.{Signature};
ghost use Rattle.definition.specs.Group.{group_grammar, group_of, group_part, read_group, title_fault, statement_fault};
ghost use Rattle.records.specs.Places.{Run, Parted};
ghost use Rattle.records.specs.Refusals.{outcome_by};
ghost use Rattle.group.specs.Lookups.{content};
ghost use Rattle.group.specs.declared.ids.GroupCounts.{GroupCounts};
ghost use Rattle.group.specs.Sections.{AtRule, letter_of, kinds_of};
ghost use Rattle.group.specs.Index.{index_size, Indexed};
ghost use Rattle.group.specs.Answers.{
  Onward,
  RuleOnward,
  First,
  Section,
  Variable,
  Rule,
  AllRules,
  Kept,
};

use crate::faults::{rule_fault, statement_fault, title_fault, variable_fault};
use crate::ids::{
    CONCLUSIONS_FROM, FIELD_HEAD, GROUP_BYTES, GROUP_INDEX, GroupCounts, LETTER_B, LETTER_G,
    LETTER_H, LETTER_U, LETTER_W, RULES_FROM, Side, VARIABLES_FROM,
};
use crate::lookup::Group;
use records::iter::Fields;
use records::refusal::Refusal;
use signature::ids::START;
use signature::lookup::Signature;

// Where the part before the first field that draws 2 ends, and whether it is the whole record.
#[derive(Clone, Copy)]
struct Passed {
    end: usize,
    whole: bool,
}

// A section of the fields: how many there are and where the next one starts.
#[derive(Clone, Copy)]
struct Checked {
    count: usize,
    next: usize,
}

// A rule: where its H fields (its heads) start and where the next rule does.
#[derive(Clone, Copy)]
struct Ruled {
    heads: usize,
    next: usize,
}

// May a field of a letter stand directly behind one of another? A letter is a byte of the record, which may be none that there is.
#[tactic(auto, unfolding(definition::specs::Records::follows, definition::specs::Base::any, definition::specs::Base::has))]
fn may_follow(behind: u8, letter: u8) -> bool
    ensures { result ≡ follows group_grammar.places behind letter }
{
    match letter {
        LETTER_G => behind == START,
        LETTER_W => matches!(behind, LETTER_G | LETTER_W),
        LETTER_U => matches!(behind, LETTER_G | LETTER_W | LETTER_U | LETTER_B | LETTER_H),
        LETTER_B => matches!(behind, LETTER_U | LETTER_B),
        LETTER_H => matches!(behind, LETTER_U | LETTER_B | LETTER_H),
        _ => false,
    }
}

// The pass along the letters.
fn pass(s: &[u8]) -> Passed
    ensures { Parted s.now (group_part s.now) result.end result.whole }
{
    let mut end: usize = 0;
    let mut behind = START;
    for f in Fields::new(s) {
        if !may_follow(behind, f.letter) {
            return Passed { end, whole: false };
        }
        behind = f.letter;
        end += FIELD_HEAD + f.content.len();
    }
    // A G is required, and any letter may be the last.
    Passed {
        end,
        whole: end == s.len() && behind != START,
    }
}

// The G field, which is the first. The pass has read every field up to `end`, so here and below none is found bad.
fn title(s: &[u8], end: usize) -> Result<Checked, Refusal>
    requires end_in_bounds { end ≤ length s.now }
    ensures by_index { (f : definition.Field) (fs : List definition.Field)
        → Run s.now 0 end (f ∷ fs) → First result s.now 0 end (title_fault 0 none f) f fs }
    ensures onward { Onward result 0 end }
{
    let mut fields = Fields::new(&s[..end]);
    let f = fields.next().ok_or(Refusal::BadFields)?;
    title_fault(f.content)?;
    Ok(Checked {
        count: 1,
        next: FIELD_HEAD + f.content.len(),
    })
}

// The W fields; their positions go into the index, which is lent as a slice, since that tells its length.
fn variables(
    s: &[u8],
    from: usize,
    end: usize,
    types: usize,
    index: &mut [u16],
) -> Result<Checked, Refusal>
    requires from_in_bounds { (from ≤ end) × (end ≤ length s.now) × (length s.now ≤ group_bytes) }
    requires index_len { length index.old ≡ index_size }
    ensures variable { (signature : Signature) (fs : List definition.Field)
        → length signature.types ≡ types → Run s.now from end fs
        → Variable result signature s.now index.new from end fs }
    ensures onward { Onward result from end }
    ensures index_len_2 { length index.new ≡ index_size }
{
    let mut at = from;
    let mut count: usize = 0;
    for f in Fields::new(&s[from..end]) {
        if f.letter != LETTER_W {
            break;
        }
        variable_fault(f.content, types, count)?;
        index[VARIABLES_FROM + count] = at as u16;
        count += 1;
        at += FIELD_HEAD + f.content.len();
    }
    Ok(Checked { count, next: at })
}

// The B or the H fields of a rule, which start at a position.
fn statements(
    sig: &Signature<'_>,
    s: &[u8],
    from: usize,
    end: usize,
    side: Side,
    variables: usize,
) -> Result<Checked, Refusal>
    requires from_in_bounds { (from ≤ end) × (end ≤ length s.now) }
    ensures section { (fs : List definition.Field) → Run s.now from end fs
        → Section result s.now from end (letter_of side)
        (statement_fault sig.now (kinds_of (letter_of side)) variables) fs }
    ensures onward { Onward result from end }
{
    let mut at = from;
    let mut count: usize = 0;
    for f in Fields::new(&s[from..end]) {
        if f.letter != side.letter() {
            break;
        }
        statement_fault(sig, side, f.content, variables)?;
        count += 1;
        at += FIELD_HEAD + f.content.len();
    }
    Ok(Checked { count, next: at })
}

// A rule from its U field on.
fn rule(
    sig: &Signature<'_>,
    s: &[u8],
    at: usize,
    end: usize,
    variables: usize,
    before: usize,
) -> Result<Ruled, Refusal>
    requires at_in_bounds { (at ≤ end) × (end ≤ length s.now) }
    ensures rule { (f : definition.Field) (fs : List definition.Field) → Run s.now at end (f ∷ fs) → AtRule (f ∷ fs)
        → Rule result sig.now variables before s.now at end f fs }
    ensures rule_onward { RuleOnward result before at end }
{
    let mut fields = Fields::new(&s[at..end]);
    let f = fields.next().ok_or(Refusal::BadFields)?;
    rule_fault(f.content, before)?;
    let behind = at + (FIELD_HEAD + f.content.len());
    let b = statements(sig, s, behind, end, Side::Premise, variables)?;
    let h = statements(sig, s, b.next, end, Side::Conclusion, variables)?;
    Ok(Ruled {
        heads: b.next,
        next: h.next,
    })
}

// The rules. Each entry of the index ends the rule before it, the first one what stands before the rules. The loop goes on by what a
// rule says, which is several fields.
fn rules(
    sig: &Signature<'_>,
    s: &[u8],
    from: usize,
    end: usize,
    variables: usize,
    index: &mut [u16],
) -> Result<Checked, Refusal>
    requires from_in_bounds { (from ≤ end) × (end ≤ length s.now) × (length s.now ≤ group_bytes) }
    requires index_len { length index.old ≡ index_size }
    ensures all_rules { (fs : List definition.Field) → Run s.now from end fs → AtRule fs
        → AllRules result sig.now variables
        s.now index.new from fs }
    ensures kept { Kept index.old index.new }
{
    let mut at = from;
    let mut count: usize = 0;
    index[RULES_FROM] = from as u16;
    while at < end {
        let r = rule(sig, s, at, end, variables, count)?;
        index[CONCLUSIONS_FROM + count] = r.heads as u16;
        index[RULES_FROM + count + 1] = r.next as u16;
        count += 1;
        at = r.next;
    }
    Ok(Checked { count, next: at })
}

// How many variables and rules the group has, or why it is refused; where it is accepted, the index holds the positions of its fields.
// The index is lent for the call alone. Where the group is refused, the entries of the index are left free: any may have been written,
// and only their number holds.
pub fn index_group(
    sig: &Signature<'_>,
    s: &[u8],
    index: &mut [u16; GROUP_INDEX],
) -> Result<GroupCounts, Refusal>
    ensures value { outcome_by (λ (counts : GroupCounts). group_of (group_part s.now).fields) result ≡ read_group sig.now s.now }
    ensures usable { IfOk result (λ (counts : GroupCounts). Indexed sig.now s.now index.new counts.variables counts.rules) }
    ensures index_len_unchanged { length index.new ≡ length index.old }
{
    if GROUP_BYTES < s.len() {
        return Err(Refusal::TooLong);
    }
    let p = pass(s);
    if p.end == 0 {
        return Err(Refusal::BadFields);
    }
    let g = title(s, p.end)?;
    let w = variables(s, g.next, p.end, sig.types(), index)?;
    let u = rules(sig, s, w.next, p.end, w.count, index)?;
    if !p.whole {
        return Err(Refusal::BadFields);
    }
    Ok(GroupCounts {
        variables: w.count,
        rules: u.count,
    })
}

// The group, or why it is refused. The index is lent for as long as the group is used.
pub fn read_group<'a>(
    sig: &'a Signature<'a>,
    s: &'a [u8],
    index: &'a mut [u16; GROUP_INDEX],
) -> Result<Group<'a>, Refusal>
    ensures value { outcome_by content result ≡ read_group sig.now s.now }
    ensures read { IfOk result (λ g. (g.signature ≡ sig.now) × (g.bytes ≡ s.now)) }
{
    let counts = index_group(sig, s, index)?;
    Ok(Group::of(sig, s, index, counts))
}
