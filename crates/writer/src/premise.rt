// What a structure says, written from the tables: its own statements, and those of the structures before it.
ghost use Rattle.std.specs.Prelude.{None, ◌++◌, ◌≡◌, ◌≤◌, ◌<◌, get_or};
ghost use Rattle.definition.specs.Letters.{letter_b};
ghost use Rattle.definition.specs.Limits.{structure_limit};
ghost use Rattle.definition.specs.Walk.{State};
ghost use Rattle.group.specs.Sections.{letter_of};
ghost use Rattle.records.specs.Buffer.{Put, count_limit};
ghost use Rattle.plan.specs.Table.{kinds_all, Tabled};
ghost use Rattle.walk.specs.Tables.{source_by, source_at, equalities_at, own_at, said_at, statements_at};
ghost use Rattle.walk.specs.Ended.{Reaching};
ghost use Rattle.walk.specs.Reached.{EndsIn, ByMap};
ghost use Rattle.walk.specs.Walked.{equalities_of, own_of, Mapped};
ghost use Rattle.laws.specs.Bytes.{statement_bytes};
ghost use Rattle.writer.specs.Rules.{ReachedBy};

use flags::none_set;
use group::ids::Side;
use plan::table::Kinds;
use rule::ids::STRUCTURES;
use rule::tail::MorphismKind;
use statements::equalities::put_equalities_bytes;
use statements::writer::put_said_bytes;
use walk::reached::Reached;
use walk::walked::Walked;

// The source that a structure was reached from: one that was reached has one. It was reached before.
pub fn reached_source(r: &Reached<'_>, t: usize) -> usize
    requires { Reaching r.now.rule r.now.tb t }
    ensures source_value { result ≡ source_at r.now.tb t }
    ensures reaching { Reaching r.now.rule r.now.tb result }
    ensures below { 0 < t → result < t }
{
    r.source(t).unwrap_or(0)
}

// The same of a plan's rule.
pub fn source_of(w: &Walked<'_>, t: usize) -> usize
    requires { Reaching w.now.rule w.now.tb t }
    ensures source_value { result ≡ source_at w.now.tb t }
    ensures reaching { Reaching w.now.rule w.now.tb result }
    ensures below { 0 < t → result < t }
{
    reached_source(&w.reached(), t)
}

// The kind by which a structure was reached, by a table of kinds and the sources alone; structure 0 was reached by none.
pub fn reached_by(
    kinds: &Kinds,
    sources: &[Option<u8>; STRUCTURES],
    t: usize,
) -> Option<MorphismKind>
    requires { (t < structure_limit) × (source_by (get_or sources.now t None) < structure_limit) }
    ensures { ReachedBy result kinds.now sources.now t }
{
    if t == 0 {
        return None;
    }
    let source = sources[t]?;
    kinds[usize::from(source)][t]
}

// Equality per kernel pair of the map that reached a structure. Most maps have none, and need not be looked up.
fn put_map_equalities(out: &mut [u8], from: usize, letter: u8, r: &Reached<'_>, t: usize) -> usize
    requires from_le_count_limit { from ≤ count_limit }
    requires by_map { ByMap r.now t }
    requires reaching { Reaching r.now.rule r.now.tb t }
    ensures put { (state : State) → EndsIn r.now state
        → Put out.old out.new (statement_bytes letter (equalities_at state.variables r.now.rule r.now.tb t)) from result }
    ensures upper_bound { result ≤ count_limit }
{
    let types = r.types;
    if none_set(r.masks(t).merged) {
        return from;
    }
    let row = r.row(reached_source(r, t));
    put_equalities_bytes(out, from, letter, &r.link(t), row, types)
}

// Equality per kernel pair of the map that reached a structure, then what the structure's masks mean, as statements of any letter.
pub fn put_reached_both(out: &mut [u8], from: usize, letter: u8, r: &Reached<'_>, t: usize) -> usize
    requires from_le_count_limit { from ≤ count_limit }
    requires by_map { ByMap r.now t }
    requires reaching { Reaching r.now.rule r.now.tb t }
    ensures put { (state : State) → EndsIn r.now state → Put out.old out.new
        (statement_bytes letter (equalities_at state.variables r.now.rule r.now.tb t ++ said_at r.now.rule r.now.tb t)) from result }
    ensures upper_bound { result ≤ count_limit }
{
    let at = put_map_equalities(out, from, letter, r, t);
    put_all_said(out, at, letter, r, t)
}

// The same of a plan's rule, on a side.
pub fn put_both(out: &mut [u8], from: usize, side: Side, w: &Walked<'_>, t: usize) -> usize
    requires from_le_count_limit { from ≤ count_limit }
    requires mapped { Mapped w.now t }
    requires reaching { Reaching w.now.rule w.now.tb t }
    ensures put { Put out.old out.new (statement_bytes (letter_of side) (equalities_of w.now t ++ said_at w.now.rule w.now.tb t)) from result }
    ensures upper_bound { result ≤ count_limit }
{
    put_reached_both(out, from, side.letter(), &w.reached(), t)
}

// What the masks of a structure mean.
#[tactic(auto, unfolding(walk::specs::Tables::said_at))]
fn put_all_said(out: &mut [u8], from: usize, letter: u8, r: &Reached<'_>, t: usize) -> usize
    requires from_le_count_limit { from ≤ count_limit }
    requires reaching { Reaching r.now.rule r.now.tb t }
    ensures { Put out.old out.new (statement_bytes letter (said_at r.now.rule r.now.tb t)) from result }
{
    put_said_bytes(
        out,
        from,
        letter,
        &r.structure(t),
        r.row(t),
        r.masks(t).said,
    )
}

// What a structure adds to the statements of its source: a map of SurjThen adds nothing.
pub fn put_reached_own(
    out: &mut [u8],
    from: usize,
    kinds: &Kinds,
    r: &Reached<'_>,
    t: usize,
) -> usize
    requires from_le_count_limit { from ≤ count_limit }
    requires tabled { Tabled kinds.now (kinds_all r.now.rule) }
    requires reaching { Reaching r.now.rule r.now.tb t }
    ensures put { (state : State) → EndsIn r.now state
        → Put out.old out.new (statement_bytes letter_b (own_at state.variables r.now.rule r.now.tb t)) from result }
    ensures upper_bound { result ≤ count_limit }
{
    let letter = Side::Premise.letter();
    match reached_by(kinds, &r.tables.sources, t) {
        Some(MorphismKind::SurjThen) => from,
        Some(MorphismKind::If) | Some(MorphismKind::Noop) => {
            put_reached_both(out, from, letter, r, t)
        }
        Some(MorphismKind::NonSurjThen) | None => put_all_said(out, from, letter, r, t),
    }
}

// The same of a plan's rule.
pub fn put_own(out: &mut [u8], from: usize, w: &Walked<'_>, t: usize) -> usize
    requires from_le_count_limit { from ≤ count_limit }
    requires reaching { Reaching w.now.rule w.now.tb t }
    ensures put { Put out.old out.new (statement_bytes letter_b (own_of w.now t)) from result }
    ensures upper_bound { result ≤ count_limit }
{
    put_reached_own(out, from, w.kinds(), &w.reached(), t)
}

// The statements of a structure: those of its source, then its own.
pub fn put_reached_premise(
    out: &mut [u8],
    from: usize,
    kinds: &Kinds,
    r: &Reached<'_>,
    t: usize,
) -> usize
    requires from_le_count_limit { from ≤ count_limit }
    requires tabled { Tabled kinds.now (kinds_all r.now.rule) }
    requires reaching { Reaching r.now.rule r.now.tb t }
    ensures put { (state : State) → EndsIn r.now state → Put out.old out.new (statement_bytes letter_b (statements_at state.slots t)) from result }
    ensures upper_bound { result ≤ count_limit }
{
    // A structure that no map reached says nothing.
    let Some(source) = r.source(t) else {
        return from;
    };
    if t == 0 {
        return put_reached_own(out, from, kinds, r, 0);
    }
    let at = put_reached_premise(out, from, kinds, r, source);
    put_reached_own(out, at, kinds, r, t)
}

// The same of a plan's rule.
pub fn put_premise(out: &mut [u8], from: usize, w: &Walked<'_>, t: usize) -> usize
    requires from_le_count_limit { from ≤ count_limit }
    requires reaching { Reaching w.now.rule w.now.tb t }
    ensures put { Put out.old out.new (statement_bytes letter_b (statements_at w.now.state.slots t)) from result }
    ensures upper_bound { result ≤ count_limit }
{
    put_reached_premise(out, from, w.kinds(), &w.reached(), t)
}
