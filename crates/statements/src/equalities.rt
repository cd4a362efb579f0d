// Equalities: one for each kernel pair of a map, of the variables of its two keys.
ghost use Rattle.std.specs.Prelude.{List, ◌≡◌, ◌≤◌, ◌<◌, length, take};
ghost use Rattle.definition.specs.Base.{each};
ghost use Rattle.definition.specs.Group.{Variable};
ghost use Rattle.definition.specs.Kinds as definition;
ghost use Rattle.definition.specs.Kinds.{variable_in};
ghost use Rattle.definition.specs.Limits.{field_limit};
ghost use Rattle.definition.specs.Names.{fiber};
ghost use Rattle.group.specs.Sections.{letter_of};
ghost use Rattle.laws.specs.Bytes.{statement_bytes};
ghost use Rattle.naming.specs.Variables.{GivenOut};
ghost use Rattle.records.specs.Buffer.{Put, count_limit};
ghost use Rattle.rows.specs.Kernel.{TypesOf};
ghost use Rattle.rows.specs.Morphism.{morphism_from};
ghost use Rattle.rule.specs.Map.{pairs_from};
ghost use Rattle.statements.specs.Structures.{side_of, side_from};
ghost use Rattle.statements.specs.Equalities.{equality_of, equalities_among, TypedVars, KeysTyped};

use crate::numbered::Numbered;
use flags::flag;
use group::ids::Side;
use group::write::put_statement_bytes;
use records::write::past;
use rows::link::Link;
use rows::morphism::Morphism;
use rule::ids::{ElId, FIELDS};
use rule::map::Map;
use signature::ids::EQUALITY;

// The variables of the keys of an image, in the keys' order, and how many there are.
#[derive(Clone, Copy)]
pub struct Fiber {
    pub vars: [u16; FIELDS],
    pub count: usize,
}

// Those of an element, by the variables of the source's elements.
fn fiber_vars(source: Numbered<'_>, m: &Map<'_>, e: ElId) -> Fiber
    ensures count_le_field_limit { result.count ≤ field_limit }
    ensures vars_value { take result.count result.vars ≡ each (variable_in (side_from source.entry)) (fiber (pairs_from m.now) e.0) }
{
    let mut vars = [0u16; FIELDS];
    let mut count: usize = 0;
    for p in 0..m.count() {
        if m.image(p) == e {
            vars[count] = source.var_of(m.key(p));
            count += 1;
        }
    }
    Fiber { vars, count }
}

// Equalities of a variable with each of those behind it, typed as the first one is.
fn put_later(out: &mut [u8], from: usize, letter: u8, types: &[u8], v: u16, later: &[u16]) -> usize
    requires { (from ≤ count_limit) × (v < length types.now) }
    ensures { Put out.old out.new (statement_bytes letter (each (equality_of types.now v) later.now)) from result }
{
    let symbol = u16::from(types[usize::from(v)]);
    let mut at = from;
    for w in later {
        at = put_statement_bytes(out, at, letter, EQUALITY, symbol, &[v, *w]);
    }
    at
}

// The bytes of an Equality for each of its two variables: of n variables each stands in n - 1 Equalities.
const EQUALITY_SHARE: usize = 5;

// Equalities of each two of some variables.
fn put_among(out: &mut [u8], from: usize, letter: u8, types: &[u8], vars: &[u16]) -> usize
    requires from_le_count_limit { from ≤ count_limit }
    requires typed_vars { TypedVars vars.now (length types.now) }
    ensures { Put out.old out.new (statement_bytes letter (equalities_among types.now vars.now)) from result }
{
    // Nothing of them fits: their length is enough.
    if out.len() <= from {
        let n = vars.len();
        return past(from, EQUALITY_SHARE * (n * n - n));
    }
    let mut at = from;
    for (i, v) in vars.iter().enumerate() {
        at = put_later(out, at, letter, types, *v, &vars[i + 1..]);
    }
    at
}

// Those of the keys of an element.
fn put_fiber(
    out: &mut [u8],
    from: usize,
    letter: u8,
    source: Numbered<'_>,
    m: &Map<'_>,
    types: &[u8],
    e: ElId,
) -> usize
    requires from_le_count_limit { from ≤ count_limit }
    requires keys_typed { KeysTyped (side_from source) (pairs_from m.now) (length types.now) }
    ensures { Put out.old out.new (statement_bytes letter (equalities_among types.now
        (each (variable_in (side_from source.entry)) (fiber (pairs_from m.now) e.0)))) from result }
{
    let fiber = fiber_vars(source, m, e);
    put_among(out, from, letter, types, &fiber.vars[..fiber.count])
}

// An Equality of any letter for each kernel pair, by image in the order of the target's elements; only one that is flagged is the image of
// several keys. `row` has the variables of the source's elements, by their places.
pub fn put_equalities_bytes(
    out: &mut [u8],
    from: usize,
    letter: u8,
    m: &Link<'_>,
    row: &[u16; FIELDS],
    types: &[u8],
) -> usize
    requires from_le_count_limit { from ≤ count_limit }
    requires given_out { GivenOut m.now.source row.now (length types.now) }
    ensures put { (table : List Variable) (target : definition.Side) → TypesOf table types.now → target.structure ≡ m.now.target
        → Put out.old out.new
        (statement_bytes letter (definition.equalities table (side_of m.now.source row.now) target m.now.pairs)) from result }
    ensures upper_bound { result ≤ count_limit }
{
    let source = Numbered::of(m.source(), row);
    let target = m.target();
    let merged = m.merged();
    let mut at = from;
    for j in 0..target.element_count() {
        if flag(merged, j) {
            let e = target.element_number(j);
            at = put_fiber(out, at, letter, source, m.map(), types, e);
        }
    }
    at
}

// The same on a side, of a map with a signature.
pub fn put_equalities(
    out: &mut [u8],
    from: usize,
    side: Side,
    m: &Morphism<'_>,
    row: &[u16; FIELDS],
    types: &[u8],
) -> usize
    requires from_le_count_limit { from ≤ count_limit }
    requires given_out { GivenOut (morphism_from m.now).source row.now (length types.now) }
    ensures put { (table : List Variable) (target : definition.Side) → TypesOf table types.now → target.structure ≡ (morphism_from m.now).target
        → Put out.old out.new
        (statement_bytes (letter_of side) (definition.equalities table (side_of (morphism_from m.now).source row.now) target
        (morphism_from m.now).pairs)) from result }
    ensures upper_bound { result ≤ count_limit }
{
    put_equalities_bytes(out, from, side.letter(), &m.link(), row, types)
}
