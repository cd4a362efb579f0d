// What the walk leaves.
ghost use Rattle.walk.specs.Ended.{Ended};
ghost use Rattle.walk.specs.Walked.{WalkedBy, state_left, walked_by};

use crate::reached::Reached;
use crate::tables::{StructureMasks, Tables};
use plan::plan::Plan;
use plan::table::Kinds;
use rows::morphism::Morphism;
use rule::ids::FIELDS;
use rule::tail::MorphismKind;
use rule::views::{Rule, Structure};
use std::marker::Model;

// The plan of an accepted rule, behind the walk: the tables, and the types of its variables. In contracts it is the rule and the state that
// the definition's walk over it ends in, with the tables and the types.
#[derive(Drop)]
pub struct Walked<'a> {
    pub plan: &'a Plan<'a>,
    pub tables: &'a Tables,
    pub types: &'a [u8],
}

impl<'a> Model for Walked<'a> {
    ghost Value = { WalkedBy };

    ghost view = { λ w. walked_by w.plan.now w.tables.now w.types.now };

    ghost invariant = { λ w. Ended w.plan.now.rule w.tables.now w.types.now (state_left w.plan.now) };
}

impl<'a> Walked<'a> {
    ghost use Rattle.std.specs.Prelude.{true, ◌≡◌, ℕ, ◌<◌, length};
    ghost use Rattle.std.specs.Option.{is_some};
    ghost use Rattle.definition.specs.Walk.{structure_at};
    ghost use Rattle.rule.specs.Views.{SoundBy};
    ghost use Rattle.naming.specs.Variables.{GivenOut};
    ghost use Rattle.plan.specs.Table.{kind_in, kinds_all, Tabled};
    ghost use Rattle.rows.specs.Morphism.{morphism_from};
    ghost use Rattle.walk.specs.Ended.{Reaching};
    ghost use Rattle.walk.specs.Reached.{ByMap, reach_of};
    ghost use Rattle.walk.specs.Tables.{unreached, source_at, row_at, masks_at, merged_at, reached_by};
    ghost use Rattle.walk.specs.Walked.{Mapped, map_of, Sourced, Walks};

    // The rule.
    pub fn rule(&self) -> &'a Rule<'a>
        ensures { result.now ≡ record { sig = self.now.sig; rule = self.now.rule } }
    {
        self.plan.rule()
    }

    // What the walk leaves, without the signature.
    pub fn reached(&self) -> Reached<'a>
        ensures value { result ≡ reach_of self.now }
        ensures walks { Walks self.now }
        ensures mapped { (t : ℕ) → Mapped self.now t → ByMap (reach_of self.now) t }
    {
        let rule = self.plan.rule();
        Reached {
            bytes: rule.bytes,
            index: rule.index,
            tables: self.tables,
            types: self.types,
        }
    }

    // The table of its kinds.
    pub fn kinds(&self) -> &'a Kinds
        ensures { Tabled result.now (kinds_all self.now.rule) }
    {
        self.plan.kinds()
    }

    // How many structures it has.
    pub fn structures(&self) -> usize
        ensures count_value { result ≡ length self.now.rule.structures }
        ensures sound { SoundBy (record { sig = self.now.sig; rule = self.now.rule }) }
        ensures walks { Walks self.now }
    {
        self.plan.rule().structures()
    }

    // One of them.
    pub fn structure(&self, t: usize) -> Structure<'a>
        requires { t < length self.now.rule.structures }
        ensures { result ≡ record { sig = self.now.sig; structure = structure_at self.now.rule t } }
    {
        self.plan.rule().structure(t)
    }

    // The source that a structure was reached from, if it was; that of structure 0 is 0.
    pub fn source(&self, t: usize) -> Option<usize>
        requires { t < length self.now.rule.structures }
        ensures { Sourced result self.now t }
    {
        self.reached().source(t)
    }

    // Its masks.
    pub fn masks(&self, t: usize) -> StructureMasks
        requires { t < length self.now.rule.structures }
        ensures said { result.said ≡ masks_at self.now.tb t }
        ensures merged { result.merged ≡ merged_at self.now.tb t }
    {
        self.reached().masks(t)
    }

    // The variables of its elements: if it was reached, they have types.
    pub fn row(&self, t: usize) -> &'a [u16; FIELDS]
        requires { t < length self.now.rule.structures }
        ensures value { result.now ≡ row_at self.now.tb t }
        ensures given_out { source_at self.now.tb t < unreached → GivenOut (structure_at self.now.rule t) result.now (length self.now.types) }
    {
        self.reached().row(t)
    }

    // The kind by which a structure was reached; structure 0 was reached by none.
    pub fn kind(&self, t: usize) -> Option<MorphismKind>
        requires { Reaching self.now.rule self.now.tb t }
        ensures kind { kind_in result ≡ reached_by self.now.rule self.now.tb t }
        ensures mapped { is_some result ≡ true → Mapped self.now t }
    {
        if t == 0 {
            return None;
        }
        let source = self.source(t)?;
        self.plan.kind(source, t)
    }

    // The map by which it was reached.
    pub fn morphism(&self, t: usize) -> Morphism<'a>
        requires reaching { Reaching self.now.rule self.now.tb t }
        requires mapped { Mapped self.now t }
        ensures { morphism_from result ≡ map_of self.now t }
    {
        let source = self.source(t).unwrap_or(0);
        let link = self.reached().link(t);
        Morphism::new(self.rule(), source, t, link.map, link.merged)
    }
}
