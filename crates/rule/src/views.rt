// A rule that was accepted, and its structures.
ghost use Rattle.std.specs.Prelude.{ℕ, ◌≡◌, ◌<◌, ◌≤◌, List, length, get_or};
ghost use Rattle.definition.specs.Base.{has};
ghost use Rattle.definition.specs.Names.{numbers_of};
ghost use Rattle.definition.specs.Rule as definition;
ghost use Rattle.definition.specs.Walk.{structure_at};
ghost use Rattle.rule.specs.Answers.{Accepted};
ghost use Rattle.rule.specs.Elements.{Finds};
ghost use Rattle.rule.specs.Lookup.{rule_at};
ghost use Rattle.rule.specs.Structures.{structure_in, Stands};
ghost use Rattle.rule.specs.Views.{RuleBy, StructureBy, Sound, WellFormed, SoundBy, MapsSound, no_element};

use crate::element_list::ElementList;
use crate::els::Els;
use crate::ids::{ElId, PLACE_A, PLACE_R, RULE_INDEX};
use crate::map::Map;
use crate::name::{NameKind, Names, rule_index, rule_name, structure_names};
use crate::row::{RowKind, Rows};
use crate::sections::{part_of, section_of};
use crate::tail::Tail;
use records::iter::Fields;
use signature::ids::TypeId;
use signature::lookup::Signature;
use std::marker::Model;

// An element: its number, its type and its parents.
#[derive(Clone, Copy)]
pub struct Element<'a> {
    pub number: ElId,
    pub ty: TypeId,
    pub parents: Els<'a>,
}

// A rule that was accepted: the signature that it was read by, its bytes, the index of its fields, and how many structures it has. In contracts
// it is the definition's rule, with the signature.
#[derive(Drop)]
pub struct Rule<'a> {
    pub sig: &'a Signature<'a>,
    pub bytes: &'a [u8],
    pub index: &'a [u16; RULE_INDEX],
    pub structures: usize,
}

impl<'a> Model for Rule<'a> {
    ghost Value = { RuleBy };

    ghost view = { λ r. record { sig = r.sig.now; rule = rule_at r.bytes.now } };

    ghost invariant = { λ r. Accepted r.sig.now r.bytes.now r.index.now r.structures };
}

// A structure by the bytes and the index of its rule and by its number, whatever the signature was that the rule was read by. In contracts it is
// the definition's structure.
#[derive(Drop)]
pub struct Body<'a> {
    pub bytes: &'a [u8],
    pub index: &'a [u16; RULE_INDEX],
    pub number: usize,
}

impl<'a> Model for Body<'a> {
    ghost Value = { definition.Structure };

    ghost view = { λ x. structure_in x.bytes.now x.number };

    ghost invariant = { λ x. Stands x.bytes.now x.index.now x.number };
}

// A structure of an accepted rule, with the signature that the rule was read by. In contracts it is the definition's structure, with the signature.
#[derive(Drop)]
pub struct Structure<'a> {
    pub sig: &'a Signature<'a>,
    pub body: Body<'a>,
}

impl<'a> Model for Structure<'a> {
    ghost Value = { StructureBy };

    ghost view = { λ x. record { sig = x.sig.now; structure = x.body } };

    ghost invariant = { λ x. Sound (record { sig = x.sig.now; structure = x.body }) };
}

impl<'a> Rule<'a> {
    ghost use Rattle.definition.specs.Base.{each};
    ghost use Rattle.definition.specs.Limits.{name_bytes};
    ghost use Rattle.definition.specs.Rule.{map_of, kind_of, auxiliary_of};
    ghost use Rattle.definition.specs.Walk.{pairs_between};
    ghost use Rattle.records.specs.Iter.{fields_left};
    ghost use Rattle.rule.specs.Found.{found_pairs, Joins};

    // How many structures it has.
    pub fn structures(&self) -> usize
        ensures count_value { result ≡ length self.now.rule.structures }
        ensures sound { SoundBy self.now }
    {
        self.structures
    }

    // One of them.
    pub fn structure(&self, number: usize) -> Structure<'a>
        requires { number < length self.now.rule.structures }
        ensures { result ≡ record { sig = self.now.sig; structure = structure_at self.now.rule number } }
    {
        Structure {
            sig: self.sig,
            body: Body::new(self.bytes, self.index, number),
        }
    }

    // Its name, which may be empty.
    pub fn name(&self) -> &'a [u8]
        ensures value { result.now ≡ self.now.rule.name }
        ensures short { length result.now ≤ name_bytes }
    {
        rule_name(self.bytes)
    }

    // The index of an unnamed rule.
    pub fn unnamed_index(&self) -> u16
        ensures { result ≡ self.now.rule.index }
    {
        rule_index(self.bytes)
    }

    // Its M, K and X fields.
    pub fn tail(&self) -> Tail<'a>
        ensures value { result ≡ self.now.rule }
        ensures sound { SoundBy self.now }
    {
        Tail {
            bytes: self.bytes,
            index: self.index,
        }
    }

    // Its M fields.
    pub fn maps(&self) -> Fields<'a>
        ensures value { each map_of (fields_left result) ≡ self.now.rule.maps }
        ensures sound { MapsSound self.now.rule }
    {
        self.tail().maps()
    }

    // Its K fields.
    pub fn kinds(&self) -> Fields<'a>
        ensures value { each kind_of (fields_left result) ≡ self.now.rule.kinds }
        ensures sound { SoundBy self.now }
    {
        self.tail().kinds()
    }

    // Its X fields.
    pub fn auxiliaries(&self) -> Fields<'a>
        ensures value { each auxiliary_of (fields_left result) ≡ self.now.rule.auxiliaries }
        ensures sound { SoundBy self.now }
    {
        self.tail().auxiliaries()
    }

    // The map from one structure to another.
    pub fn find_map(&self, source: usize, target: usize) -> Option<Map<'a>>
        ensures value { found_pairs result ≡ pairs_between self.now.rule.maps source target }
        ensures joins { Joins result self.now.rule source target }
    {
        self.tail().find_map(source, target)
    }
}

impl<'a> Body<'a> {
    ghost use Rattle.definition.specs.Limits.{parent_limit};
    ghost use Rattle.rule.specs.Els.{els_in};
    ghost use Rattle.rule.specs.Name.{numbers_before, names_left};
    ghost use Rattle.rule.specs.Row.{rows_left};
    ghost use Rattle.rule.specs.Structures.{names_of};
    ghost use Rattle.rule.specs.Element.{element_from};

    // A structure, by its number.
    pub fn new(bytes: &'a [u8], index: &'a [u16; RULE_INDEX], number: usize) -> Body<'a>
        requires { Stands bytes.now index.now number }
        ensures { result ≡ structure_in bytes.now number }
    {
        Body {
            bytes,
            index,
            number,
        }
    }

    // Its elements.
    pub fn elements(&self) -> ElementList<'a>
        ensures value { result ≡ self.now.elements }
        ensures formed { WellFormed self.now }
    {
        ElementList {
            bytes: self.bytes,
            index: self.index,
            number: self.number,
        }
    }

    // How many elements it has.
    pub fn element_count(&self) -> usize
        ensures count_value { result ≡ length self.now.elements }
        ensures formed { WellFormed self.now }
    {
        self.elements().count()
    }

    // The number of an element.
    #[tactic(auto, unfolding(definition::specs::Names::numbers_of))]
    pub fn element_number(&self, i: usize) -> ElId
        requires { i < length self.now.elements }
        ensures { result.0 ≡ get_or (numbers_of self.now) i 0 }
    {
        self.elements().element_number(i)
    }

    // The place of an element among them, if it is one.
    #[tactic(auto, unfolding(definition::specs::Names::numbers_of))]
    pub fn find_element(&self, e: ElId) -> Option<usize>
        ensures { Finds result e.0 (numbers_of self.now) }
    {
        self.elements().find_element(e)
    }

    // An element.
    pub fn element(&self, i: usize) -> Element<'a>
        requires { i < length self.now.elements }
        ensures value { element_from result ≡ get_or self.now.elements i no_element }
        ensures few { length (els_in result.parents) ≤ parent_limit }
    {
        self.elements().element(i)
    }

    // Its R rows.
    pub fn pred_rows(&self) -> Rows<'a>
        ensures { rows_left result ≡ self.now.pred_rows }
    {
        let section = section_of(self.index, self.number, PLACE_R);
        Rows::new(part_of(self.bytes, section), RowKind::Predicate)
    }

    // Its A rows.
    pub fn func_rows(&self) -> Rows<'a>
        ensures { rows_left result ≡ self.now.func_rows }
    {
        let section = section_of(self.index, self.number, PLACE_A);
        Rows::new(part_of(self.bytes, section), RowKind::Function)
    }

    // Its names of a kind.
    pub fn names(&self, kind: NameKind) -> Names<'a>
        ensures { names_left result ≡ names_of self.now (numbers_before kind) }
    {
        structure_names(self.bytes, self.index, self.number, kind)
    }
}

impl<'a> Structure<'a> {
    ghost use Rattle.definition.specs.Limits.{parent_limit};
    ghost use Rattle.rule.specs.Els.{els_in};
    ghost use Rattle.rule.specs.Name.{numbers_before, names_left};
    ghost use Rattle.rule.specs.Row.{rows_left};
    ghost use Rattle.rule.specs.Structures.{names_of};
    ghost use Rattle.rule.specs.Element.{element_from};

    // Its elements.
    pub fn elements(&self) -> ElementList<'a>
        ensures value { result ≡ self.now.structure.elements }
        ensures sound { Sound self.now }
    {
        self.body.elements()
    }

    // How many elements it has.
    pub fn element_count(&self) -> usize
        ensures count_value { result ≡ length self.now.structure.elements }
        ensures sound { Sound self.now }
    {
        self.body.element_count()
    }

    // The number of an element.
    pub fn element_number(&self, i: usize) -> ElId
        requires { i < length self.now.structure.elements }
        ensures { result.0 ≡ get_or (numbers_of self.now.structure) i 0 }
    {
        self.body.element_number(i)
    }

    // The place of an element among them, if it is one.
    pub fn find_element(&self, e: ElId) -> Option<usize>
        ensures { Finds result e.0 (numbers_of self.now.structure) }
    {
        self.body.find_element(e)
    }

    // An element.
    pub fn element(&self, i: usize) -> Element<'a>
        requires { i < length self.now.structure.elements }
        ensures value { element_from result ≡ get_or self.now.structure.elements i no_element }
        ensures few { length (els_in result.parents) ≤ parent_limit }
    {
        self.body.element(i)
    }

    // Its R rows.
    pub fn pred_rows(&self) -> Rows<'a>
        ensures { rows_left result ≡ self.now.structure.pred_rows }
    {
        self.body.pred_rows()
    }

    // Its A rows.
    pub fn func_rows(&self) -> Rows<'a>
        ensures { rows_left result ≡ self.now.structure.func_rows }
    {
        self.body.func_rows()
    }

    // Its names of a kind.
    pub fn names(&self, kind: NameKind) -> Names<'a>
        ensures { names_left result ≡ names_of self.now.structure (numbers_before kind) }
    {
        self.body.names(kind)
    }
}
