// The M, K and X fields of a rule that was read: where they stand, and what the content of each says. Structures are numbered from 0.
ghost use Rattle.std.specs.Prelude.{◌&&◌, ◌≡◌, eqb, get_or};
ghost use Rattle.definition.specs.Rule as definition;
ghost use Rattle.definition.specs.Rule.{If};
ghost use Rattle.definition.specs.Walk.{auxiliary_kind};
ghost use Rattle.rule.specs.Lookup.{kind_is, rule_at, Ready};
ghost use Rattle.definition.specs.Records.{number_at};
ghost use Rattle.rule.specs.Tail.{kinds, MapOf, KindOf, AuxiliaryOf};
ghost use Rattle.rule.specs.Views.{MapsSound, TailSound};

use crate::ids::{PLACE_K, PLACE_M, PLACE_X, RULE_INDEX};
use crate::map::Map;
use crate::sections::tail_part;
use records::contents::number;
use records::iter::Fields;
use std::marker::Model;

#[derive(Clone, Copy, Debug, PartialEq, Eq)]
pub enum MorphismKind {
    If,
    SurjThen,
    NonSurjThen,
    Noop,
}

// A map's source and target, and its pairs.
#[derive(Clone, Copy)]
pub struct MapField<'a> {
    pub source: usize,
    pub target: usize,
    pub pairs: &'a [u8],
}

// The kind of the maps between two structures.
#[derive(Clone, Copy)]
pub struct KindField {
    pub source: usize,
    pub target: usize,
    pub kind: MorphismKind,
}

// A structure that is an auxiliary, its class, and the kind that the map into it has by that: Noop at the start of a branch, else If.
#[derive(Clone, Copy)]
pub struct AuxiliaryField {
    pub structure: usize,
    pub class: u8,
    pub kind: MorphismKind,
}

// The number at a place, or 0 where the content is too short for it, which none of an accepted rule is (proofs/Sized).
#[tactic(auto, using(crate::proofs::TailContents::no_number))]
fn number_or_zero(content: &[u8], place: usize) -> usize
    ensures { result ≡ number_at place content.now }
{
    if content.len() >> 1 <= place {
        return 0;
    }
    usize::from(number(content, place))
}

// What an M field says: its source, its target, its pairs.
#[tactic(auto, unfolding(definition::specs::Rule::map_of, crate::specs::Pairs::pairs_in_bytes), using(crate::proofs::TailContents::pairs_read))]
pub fn read_map<'a>(content: &'a [u8]) -> MapField<'a>
    ensures { MapOf content.now result }
{
    let (_, pairs) = content.split_at(content.len().min(4));
    MapField {
        source: number_or_zero(content, 0),
        target: number_or_zero(content, 1),
        pairs,
    }
}

// Is it the map from the one structure to the other?
pub fn joins(m: MapField<'_>, source: usize, target: usize) -> bool
    ensures { result ≡ (eqb m.entry.source source && eqb m.entry.target target) }
{
    m.source == source && m.target == target
}

// The byte at a place, or 0 likewise.
fn byte_or_zero(content: &[u8], place: usize) -> u8
    ensures { result ≡ get_or content.now place 0 }
{
    if content.len() <= place {
        return 0;
    }
    content[place]
}

// The kind that a K field's byte says.
#[tactic(auto, using(crate::proofs::TailContents::kind_other))]
fn kind_by(byte: u8) -> MorphismKind
    ensures { kind_is result ≡ get_or kinds byte If }
{
    match byte {
        1 => MorphismKind::SurjThen,
        2 => MorphismKind::NonSurjThen,
        3 => MorphismKind::Noop,
        _ => MorphismKind::If,
    }
}

// The kind that an X field's class adds.
fn kind_of_class(class: u8) -> MorphismKind
    ensures { kind_is result ≡ auxiliary_kind class }
{
    match class {
        0 => MorphismKind::Noop,
        _ => MorphismKind::If,
    }
}

// What a K field says.
#[tactic(auto, unfolding(definition::specs::Rule::kind_of))]
pub fn read_kind(content: &[u8]) -> KindField
    ensures { KindOf content.now result }
{
    KindField {
        source: number_or_zero(content, 0),
        target: number_or_zero(content, 1),
        kind: kind_by(byte_or_zero(content, 4)),
    }
}

// What an X field says: its class, then its structure.
#[tactic(auto, unfolding(definition::specs::Rule::auxiliary_of), using(crate::proofs::TailContents::behind))]
pub fn read_auxiliary(content: &[u8]) -> AuxiliaryField
    ensures { AuxiliaryOf content.now result }
{
    let (_, structure) = content.split_at(content.len().min(1));
    let class = byte_or_zero(content, 0);
    AuxiliaryField {
        structure: number_or_zero(structure, 0),
        class,
        kind: kind_of_class(class),
    }
}

// The M, K and X fields: the bytes of a rule that was read, and the index of its fields. In contracts it is the definition's rule. Nothing
// is asked of the signature that it was read by.
#[derive(Drop)]
pub struct Tail<'a> {
    pub bytes: &'a [u8],
    pub index: &'a [u16; RULE_INDEX],
}

impl<'a> Model for Tail<'a> {
    ghost Value = { definition.Rule };

    ghost view = { λ t. rule_at t.bytes.now };

    ghost invariant = { λ t. Ready t.bytes.now t.index.now };
}

impl<'a> Tail<'a> {
    ghost use Rattle.definition.specs.Base.{each};
    ghost use Rattle.definition.specs.Rule.{map_of, kind_of, auxiliary_of};
    ghost use Rattle.definition.specs.Walk.{pairs_between};
    ghost use Rattle.records.specs.Iter.{fields_left};
    ghost use Rattle.rule.specs.Found.{found_pairs, Joins};

    // The M fields.
    pub fn maps(&self) -> Fields<'a>
        ensures value { each map_of (fields_left result) ≡ self.now.maps }
        ensures sound { MapsSound self.now }
    {
        Fields::new(tail_part(self.bytes, self.index, PLACE_M))
    }

    // The K fields.
    pub fn kinds(&self) -> Fields<'a>
        ensures value { each kind_of (fields_left result) ≡ self.now.kinds }
        ensures sound { TailSound self.now }
    {
        Fields::new(tail_part(self.bytes, self.index, PLACE_K))
    }

    // The X fields.
    pub fn auxiliaries(&self) -> Fields<'a>
        ensures value { each auxiliary_of (fields_left result) ≡ self.now.auxiliaries }
        ensures sound { TailSound self.now }
    {
        Fields::new(tail_part(self.bytes, self.index, PLACE_X))
    }

    // The map from one structure to another: the M fields are few, and stand in no order of their targets.
    pub fn find_map(&self, source: usize, target: usize) -> Option<Map<'a>>
        ensures value { found_pairs result ≡ pairs_between self.now.maps source target }
        ensures joins { Joins result self.now source target }
    {
        for f in self.maps() {
            let m = read_map(f.content);
            if joins(m, source, target) {
                return Some(Map { pairs: m.pairs });
            }
        }
        None
    }
}
