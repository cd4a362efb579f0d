// The kinds of all pairs of structures: those of K, then those that the X add.
ghost use Rattle.std.specs.Prelude.{[], ◌≡◌, ◌<◌};
ghost use Rattle.definition.specs.Limits.{structure_limit};
ghost use Rattle.rule.specs.Tail.{kind_from};
ghost use Rattle.rule.specs.Views.{SoundBy};
ghost use Rattle.plan.specs.Table.{kinds_all, Tabled, Adds};

use crate::sources::incoming_source;
use rule::ids::STRUCTURES;
use rule::tail::{KindField, MorphismKind, Tail, read_auxiliary, read_kind};
use rule::views::Rule;

// The kind of each pair of structures, by source, then target, where it has one.
pub type Kinds = [[Option<MorphismKind>; STRUCTURES]; STRUCTURES];

pub const NO_KINDS: Kinds = [[None; STRUCTURES]; STRUCTURES];

// A pair's kind into the table, unless the pair has one by then.
#[tactic(auto, using(crate::proofs::TableLaws::adds_none, crate::proofs::TableLaws::adds_one))]
fn add(table: &mut Kinds, k: KindField)
    requires { (k.source < structure_limit) × (k.target < structure_limit) }
    ensures { Adds table.old table.new (kind_from k) }
{
    if table[k.source][k.target].is_none() {
        table[k.source][k.target] = Some(k.kind);
    }
}

// The kinds of K, into a table without any.
#[tactic(auto, unfolding(definition::specs::Base::each), using(crate::proofs::Storing::store_start, crate::proofs::Storing::store_next))]
fn stored(tail: &Tail<'_>, table: &mut Kinds)
    requires { Tabled table.old [] }
    ensures { Tabled table.new tail.now.kinds }
{
    for f in tail.kinds() {
        add(table, read_kind(f.content));
    }
}

// Behind the kinds of a table those that the X add, in order.
#[tactic(auto, unfolding(definition::specs::Base::each), using(crate::proofs::Storing::complete_start, crate::proofs::Storing::complete_next))]
fn complete(tail: &Tail<'_>, table: &mut Kinds)
    requires { Tabled table.old tail.now.kinds }
    ensures { Tabled table.new (kinds_all tail.now) }
{
    for f in tail.auxiliaries() {
        let x = read_auxiliary(f.content);
        add(
            table,
            KindField {
                source: incoming_source(tail, x.structure).unwrap_or(0),
                target: x.structure,
                kind: x.kind,
            },
        );
    }
}

// The kinds of all pairs into a table without kinds, which is the caller's, so that none is copied.
pub fn tail_kind_table(tail: &Tail<'_>, table: &mut Kinds)
    requires { Tabled table.old [] }
    ensures { Tabled table.new (kinds_all tail.now) }
{
    stored(tail, table);
    complete(tail, table);
}

// The same of a rule that was accepted.
pub fn kind_table(rule: &Rule<'_>, table: &mut Kinds)
    requires { Tabled table.old [] }
    ensures tabled { Tabled table.new (kinds_all rule.now.rule) }
    ensures sound { SoundBy rule.now }
{
    tail_kind_table(&rule.tail(), table);
}
