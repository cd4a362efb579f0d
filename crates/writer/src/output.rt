// The group as bytes: its name, its variables, its rules.
ghost use Rattle.std.specs.Prelude.{◌≡◌, ◌≤◌, length};
ghost use Rattle.definition.specs.Flatten.{group_left};
ghost use Rattle.definition.specs.Walk.{State};
ghost use Rattle.definition.specs.Writer.{group_bytes_of};
ghost use Rattle.records.specs.Buffer.{Put, count_limit};
ghost use Rattle.plan.specs.Table.{kinds_all, Tabled};
ghost use Rattle.walk.specs.Reached.{EndsIn};

use crate::lengths::reached_rules_length;
use crate::rules::put_reached_rules;
use crate::variables::put_new_variables;
use group::write::put_group_head;
use naming::writer::{group_name_length_of, put_group_name_of};
use plan::table::Kinds;
use walk::reached::Reached;
use walk::walked::Walked;

// The group.
pub fn put_reached_group(out: &mut [u8], structures: usize, kinds: &Kinds, r: &Reached<'_>) -> usize
    requires counted { structures ≡ length r.now.rule.structures }
    requires tabled { Tabled kinds.now (kinds_all r.now.rule) }
    ensures put { (state : State) → EndsIn r.now state → Put out.old out.new (group_bytes_of (group_left r.now.rule state)) 0 result }
    ensures upper_bound { result ≤ count_limit }
{
    let name = r.name();
    let index = r.unnamed_index();
    let head = put_group_head(out, 0, group_name_length_of(name, index));
    let named = put_group_name_of(out, head, name, index);
    let tables = r.tables;
    let varied = put_new_variables(
        out,
        named,
        r.bytes,
        r.index,
        structures,
        &tables.sources,
        &tables.vars,
    );
    // Nothing of the rules fits: they are only counted.
    if out.len() <= varied {
        return reached_rules_length(varied, structures, kinds, r);
    }
    put_reached_rules(out, varied, structures, kinds, r)
}

// The same of a plan's rule.
pub fn put_group(out: &mut [u8], w: &Walked<'_>) -> usize
    ensures put { Put out.old out.new (group_bytes_of (group_left w.now.rule w.now.state)) 0 result }
    ensures upper_bound { result ≤ count_limit }
{
    put_reached_group(out, w.structures(), w.kinds(), &w.reached())
}
