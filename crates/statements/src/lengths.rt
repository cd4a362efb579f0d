// How long statements are: where nothing of them fits they are only counted.
ghost use Rattle.std.specs.Prelude.{List, ◌≡◌, ℕ, ◌+◌, ◌≤◌, eqb, length};
ghost use Rattle.definition.specs.Base.{pick};
ghost use Rattle.definition.specs.Kinds.{Side};
ghost use Rattle.definition.specs.Rule.{Row};
ghost use Rattle.laws.specs.Bytes.{statement_bytes};
ghost use Rattle.records.specs.Buffer.{capped, count_limit};
ghost use Rattle.statements.specs.Parts.{rows_said, rows_kinded, members_said, types_said};
ghost use Rattle.statements.specs.Said.{flagged, said_by};

use crate::masks::{Masks, SaidAs};
use flags::{Mask, flag, none_set};
use group::write::counted;
use rule::views::{Body, Structure};

// Where the flagged rows of a structure end, whatever kind they are said as. Each counts as many variables as it has elements that are said;
// none is looked up.
pub fn body_rows_length(from: usize, st: &Body<'_>, said: SaidAs, mask: Mask) -> usize
    requires { from ≤ count_limit }
    ensures by_index { (letter : ℕ) (kinds : Row → ℕ) (side : Side) → side.structure ≡ st.now
        → result ≡ capped (from + length (statement_bytes letter (rows_kinded side kinds said mask))) }
    ensures upper_bound { result ≤ count_limit }
{
    // No flag is set: nothing is said, and the section need not be gone along.
    if none_set(mask) {
        return from;
    }
    let mut at = from;
    for (i, row) in said.rows(st).enumerate() {
        if flag(mask, i) {
            at = counted(at, said.part(row).els.count());
        }
    }
    at
}

// The same of a structure with a signature.
pub fn rows_length(from: usize, st: &Structure<'_>, said: SaidAs, mask: Mask) -> usize
    requires { from ≤ count_limit }
    ensures by_index { (letter : ℕ) (side : Side) → side.structure ≡ st.now.structure
        → result ≡ capped (from + length (statement_bytes letter (rows_said side said mask))) }
    ensures upper_bound { result ≤ count_limit }
{
    body_rows_length(from, &st.body, said, mask)
}

// The flags that an element goes by: with parents it has a member row, without any a TypeSet.
fn flags_of(parents: usize, members: Mask, free: Mask) -> Mask
    ensures { result ≡ pick (eqb parents 0) free members }
{
    if parents == 0 { free } else { members }
}

// Where the flagged member rows and the TypeSets of the flagged elements end. No order changes how long they are together, so the
// members are not sorted, and each element is read once: its parents and itself are the variables of either.
fn elements_length(from: usize, st: &Body<'_>, members: Mask, free: Mask) -> usize
    requires { from ≤ count_limit }
    ensures by_index { (letter : ℕ) (side : Side) → side.structure ≡ st.now
        → result ≡ capped (from + (length (statement_bytes letter (members_said side members))
        + length (statement_bytes letter (types_said side (flagged free side.structure.elements))))) }
    ensures upper_bound { result ≤ count_limit }
{
    // No flag is set: nothing is said, and the elements need not be gone along.
    if none_set(members) && none_set(free) {
        return from;
    }
    let mut at = from;
    for i in 0..st.element_count() {
        let parents = st.element(i).parents.count();
        if flag(flags_of(parents, members, free), i) {
            at = counted(at, parents + 1);
        }
    }
    at
}

// Where the statements of a structure would end, written from a position on.
pub fn body_said_length(from: usize, st: &Body<'_>, masks: Masks) -> usize
    requires { from ≤ count_limit }
    ensures by_index { (letter : ℕ) (variables : List ℕ)
        → result ≡ capped (from + length (statement_bytes letter (said_by st.now variables masks))) }
    ensures upper_bound { result ≤ count_limit }
{
    let behind_preds = body_rows_length(from, st, SaidAs::Predicates, masks.preds);
    let behind_funcs = body_rows_length(behind_preds, st, SaidAs::Functions, masks.funcs);
    elements_length(behind_funcs, st, masks.members, masks.free)
}

// The same of a structure with a signature.
pub fn said_length(from: usize, st: &Structure<'_>, masks: Masks) -> usize
    requires { from ≤ count_limit }
    ensures by_index { (letter : ℕ) (variables : List ℕ)
        → result ≡ capped (from + length (statement_bytes letter (said_by st.now.structure variables masks))) }
    ensures upper_bound { result ≤ count_limit }
{
    body_said_length(from, &st.body, masks)
}
