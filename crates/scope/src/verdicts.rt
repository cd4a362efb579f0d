// What one statement of a rule settles.
ghost use Rattle.std.specs.Prelude.{◌≡◌, ◌*◌, ◌≤◌, ◌<◌, min, length};
ghost use Rattle.definition.specs.Base.{has};
ghost use Rattle.definition.specs.Signature.{type_parents};
ghost use Rattle.definition.specs.Scope as definition;
ghost use Rattle.definition.specs.Scope.{owner_count, owners_verdict};
ghost use Rattle.signature.specs.Relations.{kind_of};
ghost use Rattle.group.specs.Lookups.{table, Named, Sound};
ghost use Rattle.group.specs.Views.{statement_from};
ghost use Rattle.scope.specs.Statements.{accepted_by, owners_in, verdict_by};
ghost use Rattle.scope.specs.Answers.{verdict_of};
ghost use Rattle.scope.specs.Sides.{without_model, suiting};

use crate::answers::{Owners, Verdict};
use group::ids::Side;
use group::rule::StatementView;
use records::refusal::Refusal;
use signature::ids::{Relation, TypeId};
use signature::lookup::Signature;

// How many owners a model's rules have: one more than it has parents.
pub fn owner_count(sig: &Signature<'_>, m: TypeId) -> usize
    requires m_lt_types { m.0 < length sig.now.types }
    ensures { result ≡ owner_count sig.now m.0 }
{
    sig.type_parents(m) + 1
}

// Is a type among the parents of another, in that one's own list?
#[tactic(auto, using(crate::proofs::Settling::has_steps))]
fn among(sig: &Signature<'_>, t: TypeId, x: TypeId) -> bool
    requires t_lt_types { t.0 < length sig.now.types }
    ensures { result ≡ has x.0 (type_parents sig.now t.0) }
{
    for i in 0..sig.type_parents(t) {
        if sig.type_parent(t, i) == x {
            return true;
        }
    }
    false
}

// Is a relation's model the model, or one among the other's parents?
#[tactic(auto, unfolding(definition::specs::Scope::related))]
fn related(sig: &Signature<'_>, m: TypeId, p: TypeId) -> bool
    requires m_lt_types { (m.0 < length sig.now.types) × (p.0 < length sig.now.types) }
    ensures { result ≡ definition.related sig.now m.0 p.0 }
{
    p == m || among(sig, p, m) || among(sig, m, p)
}

// A statement's first variables against the owners, so many of each: 43 where it has fewer. A FuncDomain's result is none of them.
#[tactic(auto, using(crate::proofs::Settling::compared_steps))]
fn compared(own: &Owners<'_>, count: usize, t: StatementView<'_>) -> Result<Verdict, Refusal>
    requires count_bound { 2 * count ≤ length own.now.variables.now }
    requires named { Named own.now.table.now.bytes.now (statement_from t).variables }
    ensures { verdict_of result ≡ owners_verdict (table own.now.table.now.bytes.now)
        (owners_in own.now) count (statement_from t.entry) }
{
    if t.count() < count {
        return Err(Refusal::TooFewVariables);
    }
    if own
        .table
        .same_variables(&t.variables[..2 * count], &own.variables[..2 * count])
    {
        return Ok(Verdict::Open);
    }
    Ok(Verdict::Global)
}

// A statement without a model. A conclusion must have one; a premise passes, but an Equality should have been eliminated.
#[tactic(auto, unfolding(crate::specs::Sides::without_model))]
fn without_model(side: Side, relation: Relation) -> Result<Verdict, Refusal>
    ensures { verdict_of result ≡ without_model side (kind_of relation) }
{
    match (side, relation) {
        (Side::Conclusion, _) => Ok(Verdict::Global),
        (Side::Premise, Relation::Equality(_)) => Err(Refusal::PremiseEquality),
        (Side::Premise, _) => Ok(Verdict::Open),
    }
}

// Does a statement's model suit the rule's? A conclusion's must be the same, a premise's related.
#[tactic(auto, unfolding(crate::specs::Sides::suiting))]
fn suits(sig: &Signature<'_>, side: Side, m: TypeId, p: TypeId) -> bool
    requires m_lt_types { (m.0 < length sig.now.types) × (p.0 < length sig.now.types) }
    ensures { result ≡ suiting side sig.now m.0 p.0 }
{
    match side {
        Side::Conclusion => p == m,
        Side::Premise => related(sig, m, p),
    }
}

// How many of the owners a statement of a model must have: as many as both models have. Where the models are the same, all.
fn shared_count(own: &Owners<'_>, parent: TypeId) -> usize
    requires { parent.0 < length own.now.signature.now.types }
    ensures { result ≡ min (owner_count own.now.signature.now parent.0) (owner_count own.now.signature.now own.now.model.0) }
{
    owner_count(own.signature, parent).min(own.variables.len() >> 1)
}

// What a statement settles.
#[tactic(auto, using(crate::proofs::Settling::verdict_steps))]
pub fn statement_verdict(
    own: &Owners<'_>,
    side: Side,
    t: StatementView<'_>,
) -> Result<Verdict, Refusal>
    requires sound { Sound (accepted_by own.now) (statement_from t) }
    ensures { verdict_of result ≡ verdict_by own.now side (statement_from t.entry) }
{
    let sig = own.signature;
    let Some(parent) = sig.parent_model(t.relation) else {
        return without_model(side, t.relation);
    };
    if !suits(sig, side, own.model, parent) {
        return Ok(Verdict::Global);
    }
    compared(own, shared_count(own, parent), t)
}
