// Keys and their variables; kernel pairs: two keys of one image. Refusal 25.
ghost use Rattle.std.specs.Prelude.{List, ◌≡◌, ℕ, ◌+◌, ◌<◌, length, get_or, drop};
ghost use Rattle.definition.specs.Base.{any};
ghost use Rattle.definition.specs.Group.{Variable};
ghost use Rattle.definition.specs.Kinds.{Side, kernel_clashes};
ghost use Rattle.definition.specs.Names.{numbers_of};
ghost use Rattle.definition.specs.Rule as definition;
ghost use Rattle.definition.specs.Rule.{Pair};
ghost use Rattle.rule.specs.Map.{pairs_from};
ghost use Rattle.rule.specs.MapFields.{KeysIn, ImagesIn};
ghost use Rattle.rule.specs.Pairs.{no_pair};
ghost use Rattle.rule.specs.Views.{listed_numbers};
ghost use Rattle.rows.specs.Kernel.{clash, images_ascend, KeyVars, KeyTypes, TypesOf, SideAt, Typed, Merged};

use flags::{Mask, NO_FLAGS, PLACES, packed_less};
use rule::element_list::ElementList;
use rule::ids::FIELDS;
use rule::map::Map;
use rule::views::Structure;

// The variables of a map's keys, in the keys' order; `row` has those of a list's elements, by their places.
pub fn key_vars_among(els: &ElementList<'_>, row: &[u16; FIELDS], m: &Map<'_>) -> [u16; FIELDS]
    requires { KeysIn (listed_numbers els.now) (pairs_from m.now) }
    ensures { (side : Side) → SideAt (listed_numbers els.now) row.now side → KeyVars side (pairs_from m.now) result }
{
    let given = &row[..els.count()];
    let mut vars = [0u16; FIELDS];
    for p in 0..m.count() {
        let Some(i) = els.find_element(m.key(p)) else {
            return vars;
        };
        vars[p] = given[i];
    }
    vars
}

// The same by the source's elements.
#[tactic(auto, unfolding(definition::specs::Names::numbers_of))]
pub fn key_vars(source: &Structure<'_>, row: &[u16; FIELDS], m: &Map<'_>) -> [u16; FIELDS]
    requires { KeysIn (numbers_of source.now.structure) (pairs_from m.now) }
    ensures { (side : Side) → SideAt (numbers_of source.now.structure) row.now side → KeyVars side (pairs_from m.now) result }
{
    key_vars_among(&source.elements(), row, m)
}

// Does each image stand above the one before it? Then no two keys have one image.
fn images_ascend(m: &Map<'_>) -> bool
    ensures { result ≡ images_ascend (pairs_from m.now) }
{
    if m.count() == 0 {
        return true;
    }
    let mut last = m.image(0);
    for p in 1..m.count() {
        let e = m.image(p);
        if e <= last {
            return false;
        }
        last = e;
    }
    true
}

// The elements of a list that are images of several keys, a flag for each place. In most maps images ascend, and there are none;
// else this is one pass over the pairs.
pub fn merged_among(target: &ElementList<'_>, m: &Map<'_>) -> Mask
    ensures { (structure : definition.Structure) → numbers_of structure ≡ listed_numbers target.now → ImagesIn structure (pairs_from m.now)
        → Merged result structure (pairs_from m.now) }
{
    if images_ascend(m) {
        return NO_FLAGS;
    }
    let count = target.count();
    let mut seen = [false; PLACES];
    let mut merged = [false; PLACES];
    for p in 0..m.count() {
        let Some(j) = target.find_element(m.image(p)) else {
            return NO_FLAGS;
        };
        merged[j] = seen[j];
        seen[j] = true;
    }
    packed_less(merged, [false; PLACES], count)
}

// The elements of a structure that are images of several keys.
pub fn merged_els(target: &Structure<'_>, m: &Map<'_>) -> Mask
    ensures { ImagesIn target.now.structure (pairs_from m.now) → Merged result target.now.structure (pairs_from m.now) }
{
    merged_among(&target.elements(), m)
}

// Does the variable of a key differ in type from that of a later key of the same image?
fn clashes_later(m: &Map<'_>, vars: &[u16; FIELDS], types: &[u8], p: usize) -> bool
    requires p_lt_pairs { p < length (pairs_from m.now) }
    requires typed { Typed (pairs_from m.now) vars.now (length types.now) }
    ensures { (type : Pair → ℕ) → KeyTypes (pairs_from m.now) vars.now types.now type
        → result ≡ any (clash type (get_or (pairs_from m.now) p no_pair)) (drop (p + 1) (pairs_from m.now)) }
{
    let count = m.count();
    let image = m.image(p);
    let ty = types[usize::from(vars[p])];
    for q in p + 1..count {
        if m.image(q) == image && types[usize::from(vars[q])] != ty {
            return true;
        }
    }
    false
}

// 25: do two variables of a kernel pair differ in type?
pub fn kernel_clash(m: &Map<'_>, vars: &[u16; FIELDS], types: &[u8]) -> bool
    requires { Typed (pairs_from m.now) vars.now (length types.now) }
    ensures { (table : List Variable) (source target : Side) → KeyVars source (pairs_from m.now) vars.now → TypesOf table types.now
        → ImagesIn target.structure (pairs_from m.now) → result ≡ kernel_clashes table source target (pairs_from m.now) }
{
    for p in 0..m.count() {
        if clashes_later(m, vars, types, p) {
            return true;
        }
    }
    false
}
