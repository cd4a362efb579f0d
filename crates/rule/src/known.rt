// The elements of the structures that are known so far, while a rule is read.
ghost use Rattle.std.specs.Prelude.{List, ◌≡◌, ℕ, ◌<◌, length};
ghost use Rattle.definition.specs.Base.{has, all};
ghost use Rattle.definition.specs.Records.{numbers};
ghost use Rattle.definition.specs.Rule.{elements_at};
ghost use Rattle.rule.specs.Elements as elements;
ghost use Rattle.rule.specs.Elements.{numbers_in};
ghost use Rattle.rule.specs.Faults.{pair_named};
ghost use Rattle.rule.specs.Pairs.{pairs_in_bytes};
ghost use Rattle.rule.specs.Views.{listed_numbers};

use crate::element_list::ElementList;
use crate::ids::{ElId, RULE_INDEX};
use records::fields::num;
use std::marker::Model;

// The bytes of the rule, the index of its fields, and of how many structures the elements are known. In contracts it is the list of these
// structures' element numbers.
#[derive(Drop)]
pub struct Known<'a> {
    pub bytes: &'a [u8],
    pub index: &'a [u16; RULE_INDEX],
    pub structures: usize,
}

impl<'a> Model for Known<'a> {
    ghost Value = { List (List ℕ) };

    ghost view = { λ k. numbers_in k.bytes.now k.index.now k.structures };

    ghost invariant = { λ k. elements.Known k.bytes.now k.index.now k.structures };
}

impl<'a> Known<'a> {
    // How many structures they are.
    #[tactic(auto, using(crate::proofs::Drawn::named_length))]
    pub fn count(&self) -> usize
        ensures { result ≡ length self.now }
    {
        self.structures
    }

    // The elements of one.
    fn elements(&self, structure: usize) -> ElementList<'a>
        requires { structure < length self.now }
        ensures { listed_numbers result ≡ elements_at self.now structure }
    {
        ElementList {
            bytes: self.bytes,
            index: self.index,
            number: structure,
        }
    }

    // Is there such an element in a structure?
    pub fn has_element(&self, structure: usize, e: ElId) -> bool
        requires { structure < length self.now }
        ensures { result ≡ has e.0 (elements_at self.now structure) }
    {
        self.elements(structure).has_element(e)
    }

    // Is there an element in each number of a content?
    pub fn has_elements(&self, structure: usize, els: &[u8]) -> bool
        requires { structure < length self.now }
        ensures { result ≡ all (λ (e : ℕ). has e (elements_at self.now structure)) (numbers els.now) }
    {
        self.elements(structure).has_elements(els)
    }

    // Is each key an element of the source and each image one of the target?
    pub fn has_pairs(&self, source: usize, target: usize, pairs: &[u8]) -> bool
        requires { (source < length self.now) × (target < length self.now) }
        ensures { result ≡ all (pair_named (elements_at self.now source) (elements_at self.now target)) (pairs_in_bytes pairs.now) }
    {
        for p in 0..pairs.len() >> 2 {
            if !self.has_element(source, ElId(num(pairs, 4 * p))) {
                return false;
            }
            if !self.has_element(target, ElId(num(pairs, 4 * p + 2))) {
                return false;
            }
        }
        true
    }
}
