// The A row that yields a new element.
ghost use Rattle.std.specs.Prelude.{Bool, List, ◌≡◌, ℕ, length, take};
ghost use Rattle.definition.specs.Base.{all, but_last, each, ◌∈◌};
ghost use Rattle.definition.specs.Names.{numbers_of};
ghost use Rattle.definition.specs.Rows.{last_element};
ghost use Rattle.rule.specs.Els.{els_in};
ghost use Rattle.rule.specs.Row.{row_from, rows_left};
ghost use Rattle.rule.specs.Views.{listed_numbers};
ghost use Rattle.kinds.specs.Yielding.{Yields};

use rule::element_list::ElementList;
use rule::els::Els;
use rule::ids::{ElId, FIELDS};
use rule::row::{Row, Rows};
use rule::views::Structure;

// A row, and its place in its section.
#[derive(Clone, Copy)]
pub struct Yielding<'a> {
    pub place: usize,
    pub row: Row<'a>,
}

// The last element of a row: of an A row, its result. One without elements, which no accepted rule has, has result 0.
#[tactic(auto, using(crate::proofs::Seeking::last_some, crate::proofs::Seeking::last_none))]
fn row_result(row: Row<'_>) -> ElId
    ensures { result.0 ≡ last_element (row_from row.entry) }
{
    let count = row.els.count();
    if count == 0 {
        return ElId(0);
    }
    row.els.at(count - 1)
}

// The first row whose result is an element.
pub fn yielding_row<'a>(rows: Rows<'a>, e: ElId) -> Option<Yielding<'a>>
    ensures { Yields result e.0 (rows_left rows.entry) }
{
    for (place, row) in rows.enumerate() {
        if row_result(row) == e {
            return Some(Yielding { place, row });
        }
    }
    None
}

// The arguments of a row: its elements but for its result.
#[tactic(auto, using(crate::proofs::Seeking::but_last_first))]
pub fn arguments<'a>(row: Row<'a>) -> Els<'a>
    ensures { els_in result ≡ but_last (row_from row.entry).elements }
{
    row.els.first(row.els.count().saturating_sub(1))
}

// Does each element of a list have its flag? A flag stands at the place that its element has among those of a structure.
pub fn all_flagged_among(elements: &ElementList<'_>, l: Els<'_>, flags: &[bool; FIELDS]) -> bool
    ensures { (p : ℕ → Bool) → take (length elements.now) flags.now ≡ each p (listed_numbers elements.now)
        → ((e : ℕ) → e ∈ els_in l.entry → e ∈ listed_numbers elements.now) → result ≡ all p (els_in l.entry) }
{
    let given = &flags[..elements.count()];
    for j in 0..l.count() {
        let Some(i) = elements.find_element(l.at(j)) else {
            return false;
        };
        if !given[i] {
            return false;
        }
    }
    true
}

// The same among the elements of a structure of an accepted rule.
pub fn all_flagged(st: &Structure<'_>, l: Els<'_>, flags: &[bool; FIELDS]) -> bool
    ensures { (p : ℕ → Bool) → take (length st.now.structure.elements) flags.now ≡ each p (numbers_of st.now.structure)
        → ((e : ℕ) → e ∈ els_in l.entry → e ∈ numbers_of st.now.structure) → result ≡ all p (els_in l.entry) }
{
    all_flagged_among(&st.elements(), l, flags)
}
