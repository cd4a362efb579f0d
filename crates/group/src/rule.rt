// A rule of an accepted group, and its statements.
ghost use Rattle.std.specs.Prelude.{◌≡◌, ◌+◌, ◌<◌, length, get_or};
ghost use Rattle.definition.specs.Letters.{letter_u};
ghost use Rattle.definition.specs.Records.{blocks};
ghost use Rattle.definition.specs.Group.{group_part};
ghost use Rattle.records.specs.Iter.{fields_in};
ghost use Rattle.group.specs.Index.{conclusions_at, no_block, Rules};
ghost use Rattle.group.specs.Lookups.{accepted, Readable, AllSound, RuleStands, SectionsAt};

use crate::ids::{
    BEFORE_VARS, CONCLUSIONS_FROM, FIELD_HEAD, GROUP_INDEX, RULES_FROM, Side, VARS_AT,
};
use crate::lookup::{Group, VariableTable};
use records::fields::{num, two};
use records::iter::{Field, Fields};
use signature::ids::Relation;
use signature::lookup::{Signature, relation};

// A rule of a group: the signature, the group's variables, the bytes of its B fields and of its H fields, and where its H fields stand in the
// group, or any place in it where there are none. Of the group's other rules nothing is asked.
#[derive(Clone, Copy)]
pub struct FlatRule<'a> {
    pub signature: &'a Signature<'a>,
    pub table: &'a VariableTable<'a>,
    pub premises: &'a [u8],
    pub conclusions: &'a [u8],
    pub from: usize,
    pub ghost stands: { RuleStands (accepted signature.now table.now.bytes.now) premises.now conclusions.now from },
    pub ghost small: { from + 6 < 18446744073709551616 },
}

// Where the sections of a rule stand: its B fields from `premises` to `conclusions`, its H fields from there to `end`.
#[derive(Clone, Copy)]
pub struct Sections {
    pub premises: usize,
    pub conclusions: usize,
    pub end: usize,
}

// Where the sections of a rule stand, by the index.
pub fn rule_sections(s: &[u8], index: &[u16; GROUP_INDEX], rules: usize, k: usize) -> Sections
    requires rules { Rules s.now index.now rules (blocks letter_u (group_part s.now).fields) }
    requires k_lt_rules { k < rules }
    ensures sections_at { SectionsAt s.now result.premises result.conclusions result.end
        (get_or (blocks letter_u (group_part s.now).fields) k no_block) }
    ensures conclusions_value { result.conclusions ≡ conclusions_at index.now k }
    ensures small { result.conclusions < 65536 }
{
    let at = usize::from(index[RULES_FROM + k]);
    Sections {
        premises: at + FIELD_HEAD + two(s, at + 1),
        conclusions: usize::from(index[CONCLUSIONS_FROM + k]),
        end: usize::from(index[RULES_FROM + k + 1]),
    }
}

// What a B or H field says, whatever its kind: kind and symbol as they stand, and the numbers of its variables, two bytes each. These
// stay where they stand: scope compares the first few of them, and an array would be filled for each field.
#[derive(Clone, Copy)]
pub struct StatementField<'a> {
    pub kind: u8,
    pub symbol: u16,
    pub variables: &'a [u8],
}

// What the field at a position says, and where the next one starts.
#[derive(Clone, Copy)]
pub struct StatementHere<'a> {
    pub field: StatementField<'a>,
    pub next: usize,
}

// What a field of a kind that there is says: it is about a relation.
#[derive(Clone, Copy)]
pub struct StatementView<'a> {
    pub relation: Relation,
    pub variables: &'a [u8],
}

// The statements of a side of a rule, in order.
#[derive(Clone, Copy)]
pub struct Statements<'a> {
    pub(crate) signature: &'a Signature<'a>,
    pub(crate) table: &'a VariableTable<'a>,
    pub(crate) fields: Fields<'a>,
    pub ghost sound: { AllSound (accepted signature.now table.now.bytes.now) (fields_in fields.rest.now) },
}

impl<'a> StatementField<'a> {
    ghost use Rattle.std.specs.Prelude.{◌≤◌, drop};
    ghost use Rattle.records.specs.Places.{two_at};

    // What a content says.
    fn of(content: &'a [u8]) -> StatementField<'a>
        requires { 3 ≤ length content.now }
        ensures head { (result.kind ≡ get_or content.now 0 0) × (result.symbol ≡ two_at content.now 1) }
        ensures variables { result.variables.now ≡ drop 3 content.now }
    {
        let (_, variables) = content.split_at(VARS_AT);
        StatementField {
            kind: content[0],
            symbol: num(content, 1),
            variables,
        }
    }
}

impl<'a> StatementHere<'a> {
    ghost use Rattle.group.specs.Lookups.{StatementAt};
    ghost use Rattle.group.specs.Views.{Reads};

    // The B or H field at a position.
    pub fn read(s: &'a [u8], at: usize) -> StatementHere<'a>
        requires { StatementAt s.now at }
        ensures { Reads s.now at result }
    {
        let next = at + FIELD_HEAD + two(s, at + 1);
        StatementHere {
            field: StatementField::of(&s[at + FIELD_HEAD..next]),
            next,
        }
    }
}

impl<'a> StatementView<'a> {
    ghost use Rattle.std.specs.Prelude.{drop};
    ghost use Rattle.definition.specs.Group.{statement_of};
    ghost use Rattle.records.specs.Iter.{field_from};
    ghost use Rattle.group.specs.Views.{statement_from};

    // What a field says.
    fn of(field: Field<'a>) -> StatementView<'a>
        requires { Readable (field_from field) }
        ensures says { statement_from result ≡ statement_of (field_from field.entry) }
        ensures stands { result.variables.now ≡ drop 3 field.entry.content.now }
    {
        let said = StatementField::of(field.content);
        StatementView {
            relation: relation(said.kind, said.symbol),
            variables: said.variables,
        }
    }

    // How many variables it has.
    #[tactic(auto, using(laws::proofs::Numbers::length_numbers))]
    pub fn count(&self) -> usize
        ensures { result ≡ length (statement_from self.now).variables }
    {
        self.variables.len() >> 1
    }
}

impl<'a> Iterator for Statements<'a> {
    ghost use Rattle.std.specs.Iterator.{item_count};
    ghost use Rattle.group.specs.Views.{statements_left, GivesStatement};

    type Item = StatementView<'a>;

    ghost next_gives = { GivesStatement };

    ghost remaining = { item_count statements_left };

    #[inline]
    fn next(&mut self) -> Option<StatementView<'a>> {
        let field = self.fields.next()?;
        Some(StatementView::of(field))
    }
}

impl<'a> FlatRule<'a> {
    ghost use Rattle.std.specs.Prelude.{[]};
    ghost use Rattle.definition.specs.Scope.{conclusion_at};
    ghost use Rattle.records.specs.Iter.{rest_of};
    ghost use Rattle.group.specs.Lookups.{content, rule_numbered};
    ghost use Rattle.group.specs.Views.{group_of, section_of, statements_of, accepted_by, statements_left, RuleSays};

    // The rule at a position of a group.
    pub fn of(group: &'a Group<'a>, position: usize) -> FlatRule<'a>
        requires { position < length (content group.now).rules }
        ensures group { group_of result ≡ group.now }
        ensures says { RuleSays result (rule_numbered group.now position) }
        ensures first { (fields_in result.conclusions.now ≡ [] → ⊥)
            → conclusion_at (position + 1) (group_part group.now.bytes).fields 0 ≡ result.from }
        ensures small { result.from < 65536 }
    {
        let table = &group.table;
        let at = rule_sections(table.bytes, table.index, group.rules, position);
        FlatRule {
            signature: group.signature,
            table,
            premises: &table.bytes[at.premises..at.conclusions],
            conclusions: &table.bytes[at.conclusions..at.end],
            from: at.conclusions,
        }
    }

    // Where the variables of its first conclusion start in the group.
    pub fn first_variables(&self) -> usize
        ensures { result ≡ self.now.from + 6 }
    {
        self.from + BEFORE_VARS
    }

    // The statements of a side.
    #[tactic(auto, unfolding(crate::specs::Views::statements_left, crate::specs::Lookups::statements_in))]
    pub fn statements(&self, side: Side) -> Statements<'a>
        ensures group { accepted_by result ≡ group_of self.now }
        ensures from { rest_of result.fields ≡ section_of self.now side }
        ensures left { statements_left result ≡ statements_of self.now side }
    {
        let section = match side {
            Side::Premise => self.premises,
            Side::Conclusion => self.conclusions,
        };
        Statements {
            signature: self.signature,
            table: self.table,
            fields: Fields::new(section),
        }
    }
}
