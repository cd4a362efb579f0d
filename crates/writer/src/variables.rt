// The W fields of a group.
ghost use Rattle.std.specs.Prelude.{◌≡◌, ◌+◌, ◌≤◌, length};
ghost use Rattle.definition.specs.Base.{each};
ghost use Rattle.definition.specs.Limits.{field_limit, variable_limit};
ghost use Rattle.definition.specs.Writer.{record_bytes, variable_field};
ghost use Rattle.records.specs.Buffer.{Put, count_limit};
ghost use Rattle.rule.specs.Lookup.{rule_at};
ghost use Rattle.rule.specs.Structures.{structure_in, Laid};
ghost use Rattle.naming.specs.Variables.{new_in};
ghost use Rattle.walk.specs.declared.tables.Tables as walk;
ghost use Rattle.walk.specs.Tables.{news_to};
ghost use Rattle.writer.specs.Numbered.{Numbered};

use naming::writer::put_listed_variables;
use rule::element_list::ElementList;
use rule::ids::{FIELDS, RULE_INDEX, STRUCTURES};
use rule::name::{NameKind, structure_names};
use walk::walked::Walked;

// The W fields of a structure's new variables, those of its row from `next` on, which is then the number behind the last of them.
fn put_variables(
    out: &mut [u8],
    from: usize,
    bytes: &[u8],
    index: &[u16; RULE_INDEX],
    t: usize,
    row: &[u16; FIELDS],
    next: &mut u16,
) -> usize
    requires from_le_count_limit { from ≤ count_limit }
    requires laid { Laid bytes.now index.now t }
    requires field_limit_bound { next.old + field_limit ≤ variable_limit }
    ensures put { Put out.old out.new (record_bytes (each variable_field (new_in (structure_in bytes.now t) next.old row.now))) from result }
    ensures next_after { next.new ≡ next.old + length (new_in (structure_in bytes.now t) next.old row.now) }
    ensures few { length (new_in (structure_in bytes.now t) next.old row.now) ≤ field_limit }
{
    let elements = ElementList {
        bytes,
        index,
        number: t,
    };
    let variables = structure_names(bytes, index, t, NameKind::Variable);
    let identifiers = structure_names(bytes, index, t, NameKind::Identifier);
    put_listed_variables(out, from, &elements, variables, identifiers, row, next)
}

// Those of the rule's structures that have a source, of which there are so many. Structures are reached in their order, so their new
// variables stand in the order of their numbers.
pub fn put_new_variables(
    out: &mut [u8],
    from: usize,
    bytes: &[u8],
    index: &[u16; RULE_INDEX],
    structures: usize,
    sources: &[Option<u8>; STRUCTURES],
    vars: &[[u16; FIELDS]; STRUCTURES],
) -> usize
    requires from_le_count_limit { (from ≤ count_limit) × (structures ≡ length (rule_at bytes.now).structures) }
    requires numbered { Numbered bytes.now index.now sources.now }
    ensures put { (tb : walk.Tables) → tb.sources ≡ sources.now → tb.vars ≡ vars.now
        → Put out.old out.new (record_bytes (each variable_field (news_to (rule_at bytes.now) tb structures))) from result }
    ensures upper_bound { result ≤ count_limit }
{
    let mut at = from;
    let mut number: u16 = 0;
    for t in 0..structures {
        if sources[t].is_some() {
            at = put_variables(out, at, bytes, index, t, &vars[t], &mut number);
        }
    }
    at
}

// The same of a plan's rule.
pub fn put_all_variables(out: &mut [u8], from: usize, w: &Walked<'_>) -> usize
    requires { from ≤ count_limit }
    ensures { Put out.old out.new (record_bytes (each variable_field w.now.state.variables)) from result }
{
    let r = w.reached();
    let tables = r.tables;
    put_new_variables(
        out,
        from,
        r.bytes,
        r.index,
        w.structures(),
        &tables.sources,
        &tables.vars,
    )
}
