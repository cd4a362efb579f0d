// What the walk leaves, by the bytes and the index of the rule, whatever signature it was read by.
ghost use Rattle.walk.specs.Reached.{ReachBy, Leaves, reach_by};

use crate::tables::{StructureMasks, Tables};
use rows::link::Link;
use rule::ids::{FIELDS, RULE_INDEX};
use rule::map::Map;
use rule::name::{rule_index, rule_name};
use rule::tail::Tail;
use rule::views::Body;
use std::marker::Model;

// A rule's bytes and the index of its fields, behind the walk: the tables, and the types of its variables. In contracts it is the definition's
// rule, with the tables and the types.
#[derive(Drop)]
pub struct Reached<'a> {
    pub bytes: &'a [u8],
    pub index: &'a [u16; RULE_INDEX],
    pub tables: &'a Tables,
    pub types: &'a [u8],
}

impl<'a> Model for Reached<'a> {
    ghost Value = { ReachBy };

    ghost view = { λ r. reach_by r.bytes.now r.tables.now r.types.now };

    ghost invariant = { λ r. Leaves r.bytes.now r.index.now r.tables.now r.types.now };
}

impl<'a> Reached<'a> {
    ghost use Rattle.std.specs.Prelude.{◌≡◌, ◌≤◌, ◌<◌, length};
    ghost use Rattle.definition.specs.Limits.{name_bytes};
    ghost use Rattle.definition.specs.Walk.{structure_at};
    ghost use Rattle.naming.specs.Variables.{GivenOut};
    ghost use Rattle.walk.specs.Ended.{Reaching};
    ghost use Rattle.walk.specs.Tables.{unreached, source_at, row_at, masks_at, merged_at};
    ghost use Rattle.walk.specs.Reached.{Found, ByMap, link_on};

    // The rule's name, which may be empty.
    pub fn name(&self) -> &'a [u8]
        ensures value { result.now ≡ self.now.rule.name }
        ensures short { length result.now ≤ name_bytes }
    {
        rule_name(self.bytes)
    }

    // The index of an unnamed rule.
    pub fn unnamed_index(&self) -> u16
        ensures { result ≡ self.now.rule.index }
    {
        rule_index(self.bytes)
    }

    // One of its structures.
    pub fn structure(&self, t: usize) -> Body<'a>
        requires { t < length self.now.rule.structures }
        ensures { result ≡ structure_at self.now.rule t }
    {
        Body::new(self.bytes, self.index, t)
    }

    // The source that a structure was reached from, if it was; that of structure 0 is 0.
    pub fn source(&self, t: usize) -> Option<usize>
        requires { t < length self.now.rule.structures }
        ensures { Found result self.now t }
    {
        let tables = self.tables;
        let source = tables.sources[t]?;
        Some(usize::from(source))
    }

    // Its masks.
    pub fn masks(&self, t: usize) -> StructureMasks
        requires { t < length self.now.rule.structures }
        ensures said { result.said ≡ masks_at self.now.tb t }
        ensures merged { result.merged ≡ merged_at self.now.tb t }
    {
        let tables = self.tables;
        tables.masks[t]
    }

    // The variables of its elements: if it was reached, they have types.
    pub fn row(&self, t: usize) -> &'a [u16; FIELDS]
        requires { t < length self.now.rule.structures }
        ensures value { result.now ≡ row_at self.now.tb t }
        ensures given_out { source_at self.now.tb t < unreached → GivenOut (structure_at self.now.rule t) result.now (length self.now.types) }
    {
        let tables = self.tables;
        &tables.vars[t]
    }

    // The map by which it was reached.
    pub fn link(&self, t: usize) -> Link<'a>
        requires reaching { Reaching self.now.rule self.now.tb t }
        requires by_map { ByMap self.now t }
        ensures { result ≡ link_on self.now t }
    {
        let source = self.source(t).unwrap_or(0);
        let tail = Tail {
            bytes: self.bytes,
            index: self.index,
        };
        let map = tail.find_map(source, t).unwrap_or(Map { pairs: &[] });
        let merged = self.masks(t).merged;
        Link::new(self.structure(source), self.structure(t), map, merged)
    }
}
