// The statements of a rule, in order, and its scope.
ghost use Rattle.std.specs.Prelude.{◌≡◌, ◌+◌, ◌≤◌, length};
ghost use Rattle.definition.specs.Base.{first_of};
ghost use Rattle.definition.specs.Group as definition;
ghost use Rattle.definition.specs.Signature.{parent_model};
ghost use Rattle.definition.specs.Scope.{output_scope, conclusion_scope};
ghost use Rattle.records.specs.Places.{stretch};
ghost use Rattle.signature.specs.Relations.{kind_of, number_of};
ghost use Rattle.group.specs.Lookups.{table, Sound};
ghost use Rattle.group.specs.Views.{group_of, statement_from, statements_of, RuleSays};
ghost use Rattle.scope.specs.Statements.{accepted_by, owners_in, verdict_by};
ghost use Rattle.scope.specs.Sides.{first_verdict};
ghost use Rattle.scope.specs.Answers.{verdict_of, scope_answer, Leads, OwnersFrom};

use crate::answers::{Owned, Owners, Verdict};
use crate::verdicts::{owner_count, statement_verdict};
use group::ids::Side;
use group::rule::{FlatRule, StatementView};
use records::refusal::Refusal;

// The first verdict of a side of a rule that settles the scope.
fn section_verdict(rule: &FlatRule<'_>, own: &Owners<'_>, side: Side) -> Result<Verdict, Refusal>
    requires { group_of rule.now ≡ accepted_by own.now }
    ensures { verdict_of result ≡ first_of (verdict_by own.now side) (statements_of rule.now side) }
{
    for t in rule.statements(side) {
        let v = statement_verdict(own, side, t)?;
        if v != Verdict::Open {
            return Ok(v);
        }
    }
    Ok(Verdict::Open)
}

// The first verdict of a rule: its conclusions', then its premises'.
fn rule_verdict(rule: &FlatRule<'_>, own: &Owners<'_>) -> Result<Verdict, Refusal>
    requires { group_of rule.now ≡ accepted_by own.now }
    ensures { (x : definition.FlatRule) → RuleSays rule.now x → verdict_of result
        ≡ first_verdict own.now.signature.now (table own.now.table.now.bytes.now) x own.now.model.0 (owners_in own.now) }
{
    let v = section_verdict(rule, own, Side::Conclusion)?;
    if v != Verdict::Open {
        return Ok(v);
    }
    section_verdict(rule, own, Side::Premise)
}

// The scope of a rule by its first conclusion.
#[tactic(auto, using(crate::proofs::InOrder::output_steps))]
fn output_scope(rule: FlatRule<'_>, t: StatementView<'_>) -> Result<Option<Owned>, Refusal>
    requires sound { Sound (group_of rule) (statement_from t) }
    requires within { rule.from + 6 + length t.variables.now ≤ length rule.table.now.bytes.now }
    requires stands { t.variables.now ≡ stretch rule.table.now.bytes.now (rule.from + 6) (length t.variables.now) }
    ensures result_value { (x : definition.FlatRule) → RuleSays rule.entry x → scope_answer rule.entry.table.now.bytes.now result
        ≡ output_scope rule.entry.signature.now (table rule.entry.table.now.bytes.now) x (statement_from t.entry)
        (parent_model rule.entry.signature.now (kind_of t.entry.relation) (number_of t.entry.relation)) }
    ensures leads { Leads result (rule.entry.from + 6) (length rule.entry.table.now.bytes.now) }
{
    let sig = rule.signature;
    let Some(model) = sig.parent_model(t.relation) else {
        return Ok(None);
    };
    let count = owner_count(sig, model);
    if t.count() < count {
        return Err(Refusal::TooFewVariables);
    }
    let own = Owners {
        signature: sig,
        table: rule.table,
        model,
        variables: &t.variables[..2 * count],
    };
    match rule_verdict(&rule, &own)? {
        Verdict::Open => Ok(Some(Owned {
            model,
            start: rule.first_variables(),
            count,
        })),
        Verdict::Global => Ok(None),
    }
}

// The scope of a rule.
pub fn rule_scope(rule: FlatRule<'_>) -> Result<Option<Owned>, Refusal>
    ensures result_value { (x : definition.FlatRule) → RuleSays rule.entry x → scope_answer rule.entry.table.now.bytes.now result
        ≡ conclusion_scope rule.entry.signature.now (table rule.entry.table.now.bytes.now) x x.conclusion }
    ensures owners_from { OwnersFrom result rule.entry (length rule.entry.table.now.bytes.now) }
{
    let mut conclusions = rule.statements(Side::Conclusion);
    let Some(first) = conclusions.next() else {
        return Ok(None);
    };
    output_scope(rule, first)
}
