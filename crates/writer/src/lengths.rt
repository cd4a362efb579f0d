// How long the rules of a group are, without writing them.
ghost use Rattle.std.specs.Prelude.{List, [], ◌∷◌, ◌≡◌, ◌≤◌, ◌<◌, length};
ghost use Rattle.definition.specs.Base.{joined};
ghost use Rattle.definition.specs.Group as definition;
ghost use Rattle.definition.specs.Letters.{letter_b};
ghost use Rattle.definition.specs.Limits.{name_bytes};
ghost use Rattle.definition.specs.Rule.{Rule};
ghost use Rattle.definition.specs.Walk.{State};
ghost use Rattle.definition.specs.Writer.{field_bytes, record_bytes, flat_rule_fields};
ghost use Rattle.records.specs.Buffer.{Put, count_limit};
ghost use Rattle.plan.specs.Table.{kinds_all, Tabled};
ghost use Rattle.walk.specs.Tables.{source_at, own_at, concluded_at, statements_at};
ghost use Rattle.walk.specs.Ended.{Reaching};
ghost use Rattle.walk.specs.Reached.{EndsIn};
ghost use Rattle.laws.specs.Bytes.{statement_bytes};
ghost use Rattle.writer.specs.Rules.{name_field, body_bytes};

use crate::premise::put_reached_own;
use crate::rules::{emits_by_tables, put_reached_conclusion};
use group::ids::FIELD_HEAD;
use naming::writer::rule_name_length_of;
use plan::table::Kinds;
use records::write::past;
use rule::ids::STRUCTURES;
use walk::reached::Reached;
use walk::walked::Walked;

// Where what a structure says ends, behind what its source says.
fn own_length(from: usize, kinds: &Kinds, r: &Reached<'_>, t: usize) -> usize
    requires from_le_count_limit { from ≤ count_limit }
    requires tabled { Tabled kinds.now (kinds_all r.now.rule) }
    requires reaching { Reaching r.now.rule r.now.tb t }
    ensures put { (state : State) → EndsIn r.now state
        → Put [] [] (statement_bytes letter_b (own_at state.variables r.now.rule r.now.tb t)) from result }
    ensures upper_bound { result ≤ count_limit }
{
    put_reached_own(&mut [], from, kinds, r, t)
}

// Where the U field of a rule ends.
fn name_length(from: usize, name: &[u8], index: u16, count: u16) -> usize
    requires { (from ≤ count_limit) × (length name.now ≤ name_bytes) }
    ensures put { (rule : Rule) → rule.name ≡ name.now → rule.index ≡ index → Put [] [] (field_bytes (name_field rule count)) from result }
    ensures upper_bound { result ≤ count_limit }
{
    past(
        from,
        FIELD_HEAD + usize::from(rule_name_length_of(name, index, count)),
    )
}

// Where a rule's statements end; those of its premise have so many bytes.
fn body_length(from: usize, before: usize, kinds: &Kinds, r: &Reached<'_>, t: usize) -> usize
    requires from_le_count_limit { (from ≤ count_limit) × ((0 < t) × (before ≤ count_limit)) }
    requires tabled { Tabled kinds.now (kinds_all r.now.rule) }
    requires reaching { Reaching r.now.rule r.now.tb t }
    ensures put { (state : State) (conclusion : List definition.Statement) → EndsIn r.now state
        → Put [] [] (statement_bytes letter_b (statements_at state.slots (source_at r.now.tb t))) 0 before
        → concluded_at state.variables r.now.rule r.now.tb t ≡ conclusion ∷ []
        → Put [] [] (body_bytes state.slots r.now.tb t conclusion) from result }
    ensures upper_bound { result ≤ count_limit }
{
    put_reached_conclusion(&mut [], past(from, before), kinds, r, t)
}

// Where the rules end. What a structure says is counted once, behind what its source says, in however many premises it stands.
pub fn reached_rules_length(from: usize, structures: usize, kinds: &Kinds, r: &Reached<'_>) -> usize
    requires from_le_count_limit { (from ≤ count_limit) × (structures ≡ length r.now.rule.structures) }
    requires tabled { Tabled kinds.now (kinds_all r.now.rule) }
    ensures put { (state : State) → EndsIn r.now state
        → Put [] [] (joined (λ (f : definition.FlatRule). record_bytes (flat_rule_fields f)) state.rules) from result }
    ensures upper_bound { result ≤ count_limit }
{
    let name = r.name();
    let index = r.unnamed_index();
    let tables = r.tables;
    let mut lengths = [0usize; STRUCTURES];
    lengths[0] = own_length(0, kinds, r, 0);
    let mut at = from;
    let mut count: u16 = 0;
    for t in 1..structures {
        if let Some(source) = r.source(t) {
            let before = lengths[source];
            if emits_by_tables(kinds, &tables.sources, &tables.masks, t) {
                let named = name_length(at, name, index, count);
                at = body_length(named, before, kinds, r, t);
                count += 1;
            }
            lengths[t] = own_length(before, kinds, r, t);
        }
    }
    at
}

// The same of a plan's rule.
pub fn rules_length(from: usize, w: &Walked<'_>) -> usize
    requires { from ≤ count_limit }
    ensures put { Put [] [] (joined (λ (f : definition.FlatRule). record_bytes (flat_rule_fields f)) w.now.state.rules) from result }
    ensures upper_bound { result ≤ count_limit }
{
    reached_rules_length(from, w.structures(), w.kinds(), &w.reached())
}
