// Elements: their numbers, and where they stand in a structure.
ghost use Rattle.std.specs.Prelude.{List, ◌≡◌, ℕ, ◌+◌, ◌<◌};
ghost use Rattle.definition.specs.Base.{has, all};
ghost use Rattle.definition.specs.Limits.{structure_limit, field_limit};
ghost use Rattle.definition.specs.Records.{numbers};
ghost use Rattle.records.specs.Iter.{fields_in};
ghost use Rattle.rule.specs.Elements.{count_at, position_at, element_at, element_numbers, named_by, Elements, Finds};

use crate::els::Els;
use crate::ids::{COUNTS_FROM, ELEMENTS_FROM, ElId, FIELDS, RULE_INDEX};
use crate::search::search;
use records::contents::number;
use records::fields::num;
use records::iter::Fields;

// How many elements a structure has.
pub fn element_count(index: &[u16; RULE_INDEX], k: usize) -> usize
    requires { k < structure_limit }
    ensures { result ≡ count_at index.now k }
{
    usize::from(index[COUNTS_FROM + k])
}

// Where the field of an element stands.
pub fn element_field(index: &[u16; RULE_INDEX], k: usize, i: usize) -> usize
    requires { (k < structure_limit) × (i < field_limit) }
    ensures { (result ≡ position_at index.now k i) × (result < 65536) }
{
    usize::from(index[ELEMENTS_FROM + FIELDS * k + i])
}

// The number of an element.
pub fn element_number(s: &[u8], index: &[u16; RULE_INDEX], k: usize, i: usize) -> ElId
    requires k_lt_structure_limit { (k < structure_limit) × (i < count_at index.now k) }
    requires elements { Elements s.now index.now k }
    ensures { result.0 ≡ element_at s.now index.now k i }
{
    ElId(num(s, element_field(index, k, i) + 3))
}

// The place of an element in its structure, whose elements stand in ascending order.
pub fn find_element(s: &[u8], index: &[u16; RULE_INDEX], k: usize, e: ElId) -> Option<usize>
    requires k_lt_structure_limit { k < structure_limit }
    requires elements { Elements s.now index.now k }
    ensures { Finds result e.0 (element_numbers s.now index.now k) }
{
    search(element_count(index, k), e.0, |i| {
        element_number(s, index, k, i).0
    })
}

// Can an element be named in the structure whose E fields a section holds?
// Each of at least two bytes can be, also a later one or one with a fault, so this goes along the fields.
#[tactic(auto, unfolding(crate::specs::Elements::named_by, definition::specs::Base::keep, definition::specs::Base::each, definition::specs::Base::has, definition::specs::Base::any))]
fn can_be_named(section: &[u8], e: ElId) -> bool
    ensures { result ≡ has e.0 (named_by (fields_in section.now)) }
{
    for f in Fields::new(section) {
        if 2 <= f.content.len() && number(f.content, 0) == e.0 {
            return true;
        }
    }
    false
}

// Can each of some elements be named there?
pub fn parents_named(section: &[u8], els: &[u8]) -> bool
    ensures { result ≡ all (λ (e : ℕ). has e (named_by (fields_in section.now))) (numbers els.now) }
{
    let list = Els { bytes: els };
    for i in 0..list.count() {
        if !can_be_named(section, list.at(i)) {
            return false;
        }
    }
    true
}
