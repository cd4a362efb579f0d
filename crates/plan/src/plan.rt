// What the walk asks of an accepted rule.
ghost use Rattle.std.specs.Prelude.{[], true, ◌≡◌, ◌<◌};
ghost use Rattle.std.proofs.Math.Option.{some};
ghost use Rattle.definition.specs.Base.{given};
ghost use Rattle.definition.specs.Limits.{structure_limit};
ghost use Rattle.definition.specs.Walk.{pairs_between};
ghost use Rattle.laws.specs.KindTable.{kind_at};
ghost use Rattle.records.specs.Refusals.{outcome};
ghost use Rattle.rule.specs.Map.{pairs_from};
ghost use Rattle.rule.specs.Views.{RuleBy, Joined};
ghost use Rattle.plan.specs.Table.{kind_in, kinds_all, Tabled};
ghost use Rattle.plan.specs.Plan.{AllMapped, Planned, plan_of};

use crate::sources::{unmapped_auxiliary, unmapped_kind};
use crate::table::{Kinds, kind_table};
use records::refusal::Refusal;
use rule::map::Map;
use rule::tail::MorphismKind;
use rule::views::Rule;
use std::marker::Model;

// A rule whose every kind and every auxiliary has its map, with the table of its kinds. In contracts it is the definition's rule, with the
// signature.
#[derive(Drop)]
pub struct Plan<'a> {
    rule: &'a Rule<'a>,
    kinds: &'a Kinds,
}

impl<'a> Model for Plan<'a> {
    ghost Value = { RuleBy };

    ghost view = { λ p. p.rule.now };

    ghost invariant = { λ p. Planned p.rule.now.rule p.kinds.now };
}

impl<'a> Plan<'a> {
    // The plan of a rule, or why there is none: 21, then 22. The table, without kinds, is lent for as long as the plan is used.
    #[tactic(auto, using(crate::proofs::Walked::planned))]
    pub fn new(rule: &'a Rule<'a>, kinds: &'a mut Kinds) -> Result<Plan<'a>, Refusal>
        requires { Tabled kinds.old [] }
        ensures { outcome result ≡ plan_of rule.now }
    {
        let tail = rule.tail();
        if unmapped_auxiliary(&tail) {
            return Err(Refusal::UnmappedAuxiliary);
        }
        if unmapped_kind(&tail) {
            return Err(Refusal::UnmappedKind);
        }
        kind_table(rule, kinds);
        Ok(Plan { rule, kinds })
    }

    // Its rule.
    pub fn rule(&self) -> &'a Rule<'a>
        ensures value { result.now ≡ self.now }
        ensures mapped { AllMapped self.now.rule }
    {
        self.rule
    }

    // The table of its kinds.
    pub fn kinds(&self) -> &'a Kinds
        ensures { Tabled result.now (kinds_all self.now.rule) }
    {
        self.kinds
    }

    // The kind of the map between two structures, if that is walked.
    pub fn kind(&self, source: usize, target: usize) -> Option<MorphismKind>
        requires { (source < structure_limit) × (target < structure_limit) }
        ensures { kind_in result ≡ kind_at (kinds_all self.now.rule) source target }
    {
        self.kinds[source][target]
    }

    // The map of a pair that has a kind.
    pub fn map(&self, source: usize, target: usize) -> Map<'a>
        requires { given (kind_at (kinds_all self.now.rule) source target) ≡ true }
        ensures value { some (pairs_from result) ≡ pairs_between self.now.rule.maps source target }
        ensures joined { Joined self.now.rule source target (pairs_from result) }
    {
        self.rule
            .find_map(source, target)
            .unwrap_or(Map { pairs: &[] })
    }
}
