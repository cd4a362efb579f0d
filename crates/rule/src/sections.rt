// Where the fields of a letter stand: from one position to another.
ghost use Rattle.std.specs.Prelude.{List, ◌≡◌, ◌+◌, ◌≤◌, ◌<◌, get_or};
ghost use Rattle.definition.specs.Records as definition;
ghost use Rattle.records.specs.Iter.{fields_in};
ghost use Rattle.definition.specs.Limits.{structure_limit};
ghost use Rattle.definition.specs.Records.{with_letter};
ghost use Rattle.definition.specs.Rule.{rule_part};
ghost use Rattle.records.specs.Places.{Run};
ghost use Rattle.rule.specs.Layout.{place_e, place_i, place_m, place_x, sections, letter_at, name_place, section_from, section_to};
ghost use Rattle.rule.specs.Elements.{Lies};
ghost use Rattle.rule.specs.Lookup.{Ready};

use crate::ids::{LETTERS, PLACE_I, PLACE_N, PLACE_V, RULE_INDEX, STRUCTURES};

#[derive(Clone, Copy)]
pub struct Section {
    pub from: usize,
    pub to: usize,
}

// Where a section starts.
pub fn bound(index: &[u16; RULE_INDEX], section: usize) -> usize
    requires { section ≤ sections }
    ensures { result ≡ get_or index.now section 0 }
{
    usize::from(index[section])
}

// A section by its number.
pub fn section_at(index: &[u16; RULE_INDEX], section: usize) -> Section
    requires { section < sections }
    ensures { (result.from ≡ get_or index.now section 0) × (result.to ≡ get_or index.now (section + 1) 0) }
{
    Section {
        from: bound(index, section),
        to: bound(index, section + 1),
    }
}

// The fields of a letter of structure k, by the letter's place: one from E to I.
#[tactic(auto, unfolding(crate::specs::Layout::section_from, crate::specs::Layout::section_to))]
pub fn section_of(index: &[u16; RULE_INDEX], k: usize, place: usize) -> Section
    requires { (k < structure_limit) × (place_e ≤ place) × (place ≤ place_i) }
    ensures { (result.from ≡ section_from index.now k place) × (result.to ≡ section_to index.now k place) }
{
    section_at(index, LETTERS * k + place - PLACE_N)
}

// The names of structure k that have so many numbers before each: one in V, two in I.
#[tactic(auto, unfolding(crate::specs::Layout::name_place))]
pub fn name_section(index: &[u16; RULE_INDEX], k: usize, numbers: usize) -> Section
    requires { (k < structure_limit) × (1 ≤ numbers) × (numbers ≤ 2) }
    ensures { (result.from ≡ section_from index.now k (name_place numbers))
        × (result.to ≡ section_to index.now k (name_place numbers)) }
{
    section_of(index, k, PLACE_V + numbers - 1)
}

// The bytes of the fields that stand from one position to another. Where there are none, the positions may lie behind the record.
pub fn part_of<'a>(s: &'a [u8], section: Section) -> &'a [u8]
    ensures fields { (fs : List definition.Field) → Run s.now section.from section.to fs → fields_in result.now ≡ fs }
    ensures lies { Lies s.now section.to result.now }
{
    if section.to <= section.from || s.len() < section.to {
        let (none, _) = s.split_at(0);
        return none;
    }
    &s[section.from..section.to]
}

// The bytes of a section, by its number.
pub fn part_at<'a>(s: &'a [u8], index: &[u16; RULE_INDEX], section: usize) -> &'a [u8]
    requires { section < sections }
    ensures { (fs : List definition.Field) → Run s.now (get_or index.now section 0) (get_or index.now (section + 1) 0) fs → fields_in result.now ≡ fs }
{
    part_of(s, section_at(index, section))
}

// The bytes of the M, K or X fields, by the letter's place.
pub fn tail_part<'a>(s: &'a [u8], index: &[u16; RULE_INDEX], place: usize) -> &'a [u8]
    requires ready { Ready s.now index.now }
    requires place_m_le_place { (place_m ≤ place) × (place ≤ place_x) }
    ensures { fields_in result.now ≡ with_letter (letter_at place) (rule_part s.now).fields }
{
    part_at(s, index, LETTERS * STRUCTURES + place - PLACE_I)
}
