// Names: those of elements, in the V and I fields, and the rule's own, in the N field.
ghost use Rattle.std.specs.Prelude.{◌≡◌, ◌≤◌, length};
ghost use Rattle.definition.specs.Limits.{name_bytes};
ghost use Rattle.rule.specs.Lookup.{rule_at};
ghost use Rattle.rule.specs.Name.{numbers_before, names_left, NameOf};
ghost use Rattle.rule.specs.Structures.{names_of, structure_in, Headed, Laid};

use crate::ids::{ElId, RULE_INDEX};
use crate::sections::{name_section, part_of};
use records::fields::{num, two};
use records::iter::Fields;

// The two sorts of names: a V field has one number before the name, the element; an I field two, of which the second is the element.
#[derive(Clone, Copy, PartialEq, Eq)]
pub enum NameKind {
    Variable,
    Identifier,
}

// How many numbers stand before a name.
pub fn numbers_before(kind: NameKind) -> usize
    ensures { result ≡ numbers_before kind }
{
    match kind {
        NameKind::Variable => 1,
        NameKind::Identifier => 2,
    }
}

// An element and its name.
#[derive(Clone, Copy)]
pub struct Named<'a> {
    pub element: ElId,
    pub name: &'a [u8],
}

// The name that a content says. One too short for its numbers, which no accepted rule has, says element 0 and no name.
#[tactic(auto, using(crate::proofs::NameContents::name_short, crate::proofs::NameContents::name_long))]
pub fn read_name<'a>(kind: NameKind, content: &'a [u8]) -> Named<'a>
    ensures { NameOf kind content.now result }
{
    let numbers = numbers_before(kind);
    if content.len() < 2 * numbers {
        let (name, _) = content.split_at(0);
        return Named {
            element: ElId(0),
            name,
        };
    }
    let (_, name) = content.split_at(2 * numbers);
    Named {
        element: ElId(num(content, 2 * numbers - 2)),
        name,
    }
}

// The names of a section, front to back.
#[derive(Clone, Copy)]
pub struct Names<'a> {
    pub(crate) fields: Fields<'a>,
    pub(crate) kind: NameKind,
}

impl<'a> Names<'a> {
    ghost use Rattle.definition.specs.Base.{each};
    ghost use Rattle.definition.specs.Rule.{name_of};
    ghost use Rattle.records.specs.Iter.{fields_in};
    ghost use Rattle.rule.specs.Name.{names_left};

    // Those of a section's bytes.
    pub fn new(section: &'a [u8], kind: NameKind) -> Names<'a>
        ensures { names_left result ≡ each (name_of (numbers_before kind)) (fields_in section.now) }
    {
        Names {
            fields: Fields::new(section),
            kind,
        }
    }
}

impl<'a> Iterator for Names<'a> {
    ghost use Rattle.std.specs.Iterator.{YieldsFirstBy, item_count};
    ghost use Rattle.rule.specs.Name.{name_from, names_left};

    type Item = Named<'a>;

    ghost next_gives = { YieldsFirstBy name_from names_left };

    ghost remaining = { item_count names_left };

    #[inline]
    fn next(&mut self) -> Option<Named<'a>> {
        let f = self.fields.next()?;
        Some(read_name(self.kind, f.content))
    }
}

// A structure's names of a kind, by the structure's number: its elements and names stand where the index says.
pub fn structure_names<'a>(
    s: &'a [u8],
    index: &[u16; RULE_INDEX],
    number: usize,
    kind: NameKind,
) -> Names<'a>
    requires { Laid s.now index.now number }
    ensures { names_left result ≡ names_of (structure_in s.now number) (numbers_before kind) }
{
    let section = name_section(index, number, numbers_before(kind));
    Names::new(part_of(s, section), kind)
}

// The rule's name, which may be empty, by its bytes alone: an N field without a fault stands first.
pub fn rule_name(s: &[u8]) -> &[u8]
    requires { Headed s.now }
    ensures value { result.now ≡ (rule_at s.now).name }
    ensures short { length result.now ≤ name_bytes }
{
    &s[5..3 + two(s, 1)]
}

// The index of an unnamed rule, likewise.
pub fn rule_index(s: &[u8]) -> u16
    requires { Headed s.now }
    ensures { result ≡ (rule_at s.now).index }
{
    num(s, 3)
}
