// The rules of a group as bytes: a name, a premise, a conclusion.
ghost use Rattle.std.specs.Prelude.{List, [], None, ◌∷◌, ◌≡◌, ◌≤◌, ◌<◌, length, get_or};
ghost use Rattle.definition.specs.Base.{pick, joined};
ghost use Rattle.definition.specs.Group as definition;
ghost use Rattle.definition.specs.Letters.{letter_h};
ghost use Rattle.definition.specs.Limits.{structure_limit, name_bytes};
ghost use Rattle.definition.specs.Rule.{Rule};
ghost use Rattle.definition.specs.Walk.{State};
ghost use Rattle.definition.specs.Writer.{field_bytes, record_bytes, flat_rule_fields};
ghost use Rattle.records.specs.Buffer.{Put, count_limit};
ghost use Rattle.plan.specs.Table.{kinds_all, Tabled};
ghost use Rattle.walk.specs.Ended.{Reaching};
ghost use Rattle.walk.specs.Reached.{EndsIn};
ghost use Rattle.walk.specs.Tables.{source_by, concluded_at};
ghost use Rattle.walk.specs.Walked.{concluded_of};
ghost use Rattle.laws.specs.Bytes.{statement_bytes};
ghost use Rattle.writer.specs.Rules.{Emits, name_field, body_bytes};

use crate::premise::{put_reached_both, put_reached_premise, reached_by, reached_source};
use flags::none_set;
use group::ids::Side;
use group::write::put_rule_head;
use naming::writer::{put_rule_name_of, rule_name_length_of};
use plan::table::Kinds;
use rule::ids::STRUCTURES;
use rule::tail::MorphismKind;
use statements::writer::put_domains_bytes;
use walk::reached::Reached;
use walk::tables::StructureMasks;
use walk::walked::Walked;

// Does the map that reached a structure emit a rule, by the tables alone? SurjThen does; NonSurjThen does where it has a new element.
pub fn emits_by_tables(
    kinds: &Kinds,
    sources: &[Option<u8>; STRUCTURES],
    masks: &[StructureMasks; STRUCTURES],
    t: usize,
) -> bool
    requires { (t < structure_limit) × (source_by (get_or sources.now t None) < structure_limit) }
    ensures { Emits result kinds.now sources.now masks.now t }
{
    match reached_by(kinds, sources, t) {
        Some(MorphismKind::SurjThen) => true,
        Some(MorphismKind::NonSurjThen) => !none_set(masks[t].said.funcs),
        Some(MorphismKind::If) | Some(MorphismKind::Noop) | None => false,
    }
}

// The same of a structure that the walk reached.
pub fn emits(w: &Walked<'_>, t: usize) -> bool
    requires { Reaching w.now.rule w.now.tb t }
    ensures { length (concluded_of w.now t) ≡ pick result 1 0 }
{
    let tables = w.tables;
    emits_by_tables(w.kinds(), &tables.sources, &tables.masks, t)
}

// The conclusion of the rule that a structure's map emits.
pub fn put_reached_conclusion(
    out: &mut [u8],
    from: usize,
    kinds: &Kinds,
    r: &Reached<'_>,
    t: usize,
) -> usize
    requires from_le_count_limit { from ≤ count_limit }
    requires tabled { Tabled kinds.now (kinds_all r.now.rule) }
    requires reaching { Reaching r.now.rule r.now.tb t }
    ensures put { (state : State) (conclusion : List definition.Statement) → EndsIn r.now state
        → concluded_at state.variables r.now.rule r.now.tb t ≡ conclusion ∷ []
        → Put out.old out.new (statement_bytes letter_h conclusion) from result }
    ensures upper_bound { result ≤ count_limit }
{
    let letter = Side::Conclusion.letter();
    if reached_by(kinds, &r.tables.sources, t) == Some(MorphismKind::SurjThen) {
        return put_reached_both(out, from, letter, r, t);
    }
    let funcs = r.masks(t).said.funcs;
    put_domains_bytes(out, from, letter, &r.structure(t), r.row(t), funcs)
}

// The same of a plan's rule.
pub fn put_conclusion(out: &mut [u8], from: usize, w: &Walked<'_>, t: usize) -> usize
    requires from_le_count_limit { from ≤ count_limit }
    requires reaching { Reaching w.now.rule w.now.tb t }
    ensures put { (conclusion : List definition.Statement) → concluded_of w.now t ≡ conclusion ∷ []
        → Put out.old out.new (statement_bytes letter_h conclusion) from result }
    ensures upper_bound { result ≤ count_limit }
{
    put_reached_conclusion(out, from, w.kinds(), &w.reached(), t)
}

// The U field of a rule, by the number of rules before it.
fn put_name_field(out: &mut [u8], from: usize, name: &[u8], index: u16, count: u16) -> usize
    requires { (from ≤ count_limit) × (length name.now ≤ name_bytes) }
    ensures put { (rule : Rule) → rule.name ≡ name.now → rule.index ≡ index → Put out.old out.new (field_bytes (name_field rule count)) from result }
    ensures upper_bound { result ≤ count_limit }
{
    let head = put_rule_head(out, from, rule_name_length_of(name, index, count));
    put_rule_name_of(out, head, name, index, count)
}

// Its statements: those of the map's source, and the conclusion.
fn put_body(out: &mut [u8], from: usize, kinds: &Kinds, r: &Reached<'_>, t: usize) -> usize
    requires from_le_count_limit { (from ≤ count_limit) × (0 < t) }
    requires tabled { Tabled kinds.now (kinds_all r.now.rule) }
    requires reaching { Reaching r.now.rule r.now.tb t }
    ensures put { (state : State) (conclusion : List definition.Statement) → EndsIn r.now state
        → concluded_at state.variables r.now.rule r.now.tb t ≡ conclusion ∷ []
        → Put out.old out.new (body_bytes state.slots r.now.tb t conclusion) from result }
    ensures upper_bound { result ≤ count_limit }
{
    let said = put_reached_premise(out, from, kinds, r, reached_source(r, t));
    put_reached_conclusion(out, said, kinds, r, t)
}

// The rules, in the order of the structures that they reach.
pub fn put_reached_rules(
    out: &mut [u8],
    from: usize,
    structures: usize,
    kinds: &Kinds,
    r: &Reached<'_>,
) -> usize
    requires from_le_count_limit { (from ≤ count_limit) × (structures ≡ length r.now.rule.structures) }
    requires tabled { Tabled kinds.now (kinds_all r.now.rule) }
    ensures put { (state : State) → EndsIn r.now state
        → Put out.old out.new (joined (λ (f : definition.FlatRule). record_bytes (flat_rule_fields f)) state.rules) from result }
    ensures upper_bound { result ≤ count_limit }
{
    let name = r.name();
    let index = r.unnamed_index();
    let tables = r.tables;
    let mut at = from;
    let mut k: u16 = 0;
    for t in 1..structures {
        if r.source(t).is_some() && emits_by_tables(kinds, &tables.sources, &tables.masks, t) {
            let named = put_name_field(out, at, name, index, k);
            at = put_body(out, named, kinds, r, t);
            k += 1;
        }
    }
    at
}

// The same of a plan's rule.
pub fn put_rules(out: &mut [u8], from: usize, w: &Walked<'_>) -> usize
    requires { from ≤ count_limit }
    ensures put { Put out.old out.new (joined (λ (f : definition.FlatRule). record_bytes (flat_rule_fields f)) w.now.state.rules) from result }
    ensures upper_bound { result ≤ count_limit }
{
    put_reached_rules(out, from, w.structures(), w.kinds(), &w.reached())
}
