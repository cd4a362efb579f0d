// Where the maps of a rule that was read come from.
ghost use Rattle.std.specs.Prelude.{◌≡◌};
ghost use Rattle.definition.specs.Rule.{kind_of, auxiliary_of};
ghost use Rattle.definition.specs.Walk.{incoming_source, unmapped_auxiliary, unmapped_kind};
ghost use Rattle.records.specs.Iter.{field_from};
ghost use Rattle.rule.specs.Views.{MapsSound};
ghost use Rattle.plan.specs.Sources.{source_is, no_source, no_map};

use records::iter::Field;
use rule::tail::{Tail, read_auxiliary, read_kind, read_map};

// The lowest source of a structure. Maps stand by their sources, so that of the first map into it.
pub fn incoming_source(tail: &Tail<'_>, target: usize) -> Option<usize>
    ensures value { source_is result ≡ incoming_source tail.now.maps target }
    ensures sound { MapsSound tail.now }
{
    let m = tail.maps().find(|m| read_map(m.content).target == target)?;
    Some(read_map(m.content).source)
}

// An X structure that has no map into it.
fn no_source(tail: &Tail<'_>, x: Field<'_>) -> bool
    ensures { result ≡ no_source tail.now.maps (auxiliary_of (field_from x.entry)) }
{
    incoming_source(tail, read_auxiliary(x.content).structure).is_none()
}

// 21: an X structure has no map into it.
pub fn unmapped_auxiliary(tail: &Tail<'_>) -> bool
    ensures { result ≡ unmapped_auxiliary tail.now }
{
    tail.auxiliaries().any(|x| no_source(tail, x))
}

// A kind that names a pair without a map.
fn no_map(tail: &Tail<'_>, k: Field<'_>) -> bool
    ensures { result ≡ no_map tail.now.maps (kind_of (field_from k.entry)) }
{
    let k = read_kind(k.content);
    tail.find_map(k.source, k.target).is_none()
}

// 22: a kind names a pair without a map.
pub fn unmapped_kind(tail: &Tail<'_>) -> bool
    ensures { result ≡ unmapped_kind tail.now }
{
    tail.kinds().any(|k| no_map(tail, k))
}
