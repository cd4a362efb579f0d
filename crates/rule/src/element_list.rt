// The elements of one structure, by its number: all that is asked is that the index has them.
ghost use Rattle.std.specs.Prelude.{List, ◌≡◌, ℕ, ◌<◌, length, get_or};
ghost use Rattle.definition.specs.Base.{has, all};
ghost use Rattle.definition.specs.Limits.{structure_limit};
ghost use Rattle.definition.specs.Records.{numbers};
ghost use Rattle.definition.specs.Rule as definition;
ghost use Rattle.rule.specs.ElementFields.{elements_in};
ghost use Rattle.rule.specs.Elements.{Elements, Finds};
ghost use Rattle.rule.specs.Views.{listed_numbers, Listed, no_element};

use crate::elements::{element_count, element_field, element_number, find_element};
use crate::els::Els;
use crate::ids::{ElId, RULE_INDEX};
use crate::views::Element;
use records::fields::{num, two};
use signature::ids::TypeId;
use std::marker::Model;

// The bytes of a rule, the index of its fields, and the number of the structure. In contracts it is the list of the structure's elements. No rule
// need have been accepted: it is enough that this structure's elements are known.
#[derive(Drop)]
pub struct ElementList<'a> {
    pub bytes: &'a [u8],
    pub index: &'a [u16; RULE_INDEX],
    pub number: usize,
}

impl<'a> Model for ElementList<'a> {
    ghost Value = { List definition.Element };

    ghost view = { λ x. elements_in x.bytes.now x.index.now x.number };

    ghost invariant = { λ x. (x.number < structure_limit) × Elements x.bytes.now x.index.now x.number };
}

impl<'a> ElementList<'a> {
    ghost use Rattle.rule.specs.Element.{element_from};

    // How many they are.
    pub fn count(&self) -> usize
        ensures count_value { result ≡ length self.now }
        ensures sound { Listed self.now }
    {
        element_count(self.index, self.number)
    }

    // The number of one.
    pub fn element_number(&self, i: usize) -> ElId
        requires { i < length self.now }
        ensures { result.0 ≡ get_or (listed_numbers self.now) i 0 }
    {
        element_number(self.bytes, self.index, self.number, i)
    }

    // The place of an element among them, if it is one.
    pub fn find_element(&self, e: ElId) -> Option<usize>
        ensures { Finds result e.0 (listed_numbers self.now) }
    {
        find_element(self.bytes, self.index, self.number, e)
    }

    // Is it one of them?
    pub fn has_element(&self, e: ElId) -> bool
        ensures { result ≡ has e.0 (listed_numbers self.now) }
    {
        self.find_element(e).is_some()
    }

    // Is there one of them in each number of a content?
    pub fn has_elements(&self, els: &[u8]) -> bool
        ensures { result ≡ all (λ (e : ℕ). has e (listed_numbers self.now)) (numbers els.now) }
    {
        let list = Els { bytes: els };
        for i in 0..list.count() {
            if !self.has_element(list.at(i)) {
                return false;
            }
        }
        true
    }

    // One of them. Its parents are what stands behind its type, up to the end of its field; an odd byte at the end is of none.
    pub fn element(&self, i: usize) -> Element<'a>
        requires { i < length self.now }
        ensures { element_from result ≡ get_or self.now i no_element }
    {
        let part = self.bytes;
        let at = element_field(self.index, self.number, i);
        let (_, behind) = part.split_at(at + 7);
        let (parents, _) = behind.split_at(two(part, at + 1) - 4);
        Element {
            number: ElId(num(part, at + 3)),
            ty: TypeId(num(part, at + 5)),
            parents: Els { bytes: parents },
        }
    }
}
