// The variables that the elements of a structure get when a map reaches it.
ghost use Rattle.std.specs.Prelude.{None, ◌≡◌, ◌+◌, ◌≤◌, replicate};
ghost use Rattle.definition.specs.Limits.{field_limit, variable_limit};
ghost use Rattle.definition.specs.Names.{numbered};
ghost use Rattle.definition.specs.Walk.{nothing_taken};
ghost use Rattle.naming.specs.Variables.{bare, row_of, taken_in};
ghost use Rattle.naming.specs.Maps.{taken_between, taken_over, Joins};
ghost use Rattle.rows.specs.Morphism.{morphism_from};
ghost use Rattle.rule.specs.Map.{pairs_from};

use crate::variables::assign_structure_el_vars;
use rows::morphism::Morphism;
use rule::element_list::ElementList;
use rule::ids::FIELDS;
use rule::map::Map;
use rule::views::Structure;

// What each element of the target takes over: by ascending key, the image takes the key's variable, a later key replacing.
// The variables are those of the source's elements. Keys and images are elements, so each of them is found. The row is lent: handed back, it was
// copied, and by a call of the C library.
fn carried(
    row: &[u16; FIELDS],
    source: &ElementList<'_>,
    target: &ElementList<'_>,
    map: &Map<'_>,
    taken: &mut [Option<u16>; FIELDS],
)
    requires joins { Joins source.now target.now (pairs_from map.now) }
    requires none { taken.old ≡ replicate field_limit None }
    ensures { taken_in (bare target.now) taken.new ≡ taken_between row.now source.now target.now (pairs_from map.now) }
{
    // Looking into the lists tells the proof that they are few, and that they ascend.
    let _ = &source.number;
    let _ = &target.number;
    for p in 0..map.count() {
        let Some(i) = source.find_element(map.key(p)) else {
            continue;
        };
        let Some(j) = target.find_element(map.image(p)) else {
            continue;
        };
        taken[j] = Some(row[i]);
    }
}

// The target's variables, by the source's row: those taken over, and the next numbers for the other elements. Of both structures the elements
// alone are asked for.
pub fn assign_listed_el_vars(
    row: &[u16; FIELDS],
    source: &ElementList<'_>,
    target: &ElementList<'_>,
    map: &Map<'_>,
    next: u16,
) -> [u16; FIELDS]
    requires joins { Joins source.now target.now (pairs_from map.now) }
    requires room { next + field_limit ≤ variable_limit }
    ensures { result ≡ row_of (numbered next (taken_between row.now source.now target.now (pairs_from map.now))) }
{
    let mut taken = [None; FIELDS];
    carried(row, source, target, map, &mut taken);
    assign_structure_el_vars(&taken[..target.count()], next)
}

// The same, by the map as the walk has it.
pub fn assign_el_vars(row: &[u16; FIELDS], m: &Morphism<'_>, next: u16) -> [u16; FIELDS]
    requires { next + field_limit ≤ variable_limit }
    ensures { result ≡ row_of (numbered next (taken_over row.now (morphism_from m.now))) }
{
    let source = m.source().elements();
    let target = m.target().elements();
    assign_listed_el_vars(row, &source, &target, m.map(), next)
}

// The variables of elements that take nothing over.
pub fn initial_listed_el_vars(elements: &ElementList<'_>) -> [u16; FIELDS]
    ensures { result ≡ row_of (numbered 0 (nothing_taken (bare elements.now))) }
{
    assign_structure_el_vars(&[None; FIELDS][..elements.count()], 0)
}

// The variables of structure 0.
pub fn initial_el_vars(st: &Structure<'_>) -> [u16; FIELDS]
    ensures { result ≡ row_of (numbered 0 (nothing_taken st.now.structure)) }
{
    initial_listed_el_vars(&st.elements())
}
