// Elements of a map's target: new ones, and those that nothing constrains.
ghost use Rattle.std.specs.Prelude.{Bool, List, ◌≡◌, ℕ, ◌≤◌, length, take};
ghost use Rattle.definition.specs.Base.{each, given};
ghost use Rattle.definition.specs.Limits.{field_limit};
ghost use Rattle.definition.specs.Names.{numbers_of};
ghost use Rattle.naming.specs.Variables.{kept_in};
ghost use Rattle.rule.specs.Views.{listed_numbers};
ghost use Rattle.kinds.specs.Elements.{FreeOf, News};

use flags::{Mask, NO_FLAGS, PLACES, with_flag};
use rule::element_list::ElementList;
use rule::ids::FIELDS;
use rule::views::Structure;

// The new elements of a target: none, one at a place, or more.
#[derive(Clone, Copy)]
pub enum New {
    Nothing,
    One(usize),
    More,
}

// Which elements are no images and have no mark, by the front of a numbered row, which has a variable for each.
pub fn free_in_row(vars: &[u16], first: u16, marks: &[bool; PLACES]) -> Mask
    requires { length vars.now ≤ field_limit }
    ensures { (p q : ℕ → Bool) (els : List ℕ) → length vars.now ≡ length els
        → each given (kept_in first (length vars.now) vars.now) ≡ each p els → take (length vars.now) marks.now ≡ each q els
        → FreeOf result p q els }
{
    let mut mask = NO_FLAGS;
    for i in 0..vars.len() {
        if first <= vars[i] && !marks[i] {
            mask = with_flag(mask, i);
        }
    }
    mask
}

// The same of a list of elements.
pub fn free_among(
    els: &ElementList<'_>,
    row: &[u16; FIELDS],
    first: u16,
    marks: &[bool; PLACES],
) -> Mask
    ensures { (p q : ℕ → Bool) → each given (kept_in first (length els.now) row.now) ≡ each p (listed_numbers els.now)
        → take (length els.now) marks.now ≡ each q (listed_numbers els.now) → FreeOf result p q (listed_numbers els.now) }
{
    free_in_row(&row[..els.count()], first, marks)
}

// The same of a structure's elements.
#[tactic(auto, unfolding(definition::specs::Names::numbers_of))]
pub fn free_els(
    target: &Structure<'_>,
    row: &[u16; FIELDS],
    first: u16,
    marks: &[bool; PLACES],
) -> Mask
    ensures { (p q : ℕ → Bool)
        → each given (kept_in first (length target.now.structure.elements) row.now) ≡ each p (numbers_of target.now.structure)
        → take (length target.now.structure.elements) marks.now ≡ each q (numbers_of target.now.structure)
        → FreeOf result p q (numbers_of target.now.structure) }
{
    free_among(&target.elements(), row, first, marks)
}

// Which elements are new, by the front of a numbered row.
pub fn new_in_row(vars: &[u16], first: u16) -> New
    requires { length vars.now ≤ field_limit }
    ensures { (p : ℕ → Bool) (els : List ℕ) → length vars.now ≡ length els
        → each given (kept_in first (length vars.now) vars.now) ≡ each p els → News result p els }
{
    let mut new = New::Nothing;
    for i in 0..vars.len() {
        if first <= vars[i] {
            let New::Nothing = new else {
                return New::More;
            };
            new = New::One(i);
        }
    }
    new
}

// The same of a list of elements.
pub fn new_among(els: &ElementList<'_>, row: &[u16; FIELDS], first: u16) -> New
    ensures { (p : ℕ → Bool) → each given (kept_in first (length els.now) row.now) ≡ each p (listed_numbers els.now)
        → News result p (listed_numbers els.now) }
{
    new_in_row(&row[..els.count()], first)
}

// The same of a structure's elements.
#[tactic(auto, unfolding(definition::specs::Names::numbers_of))]
pub fn new_elements(target: &Structure<'_>, row: &[u16; FIELDS], first: u16) -> New
    ensures { (p : ℕ → Bool)
        → each given (kept_in first (length target.now.structure.elements) row.now) ≡ each p (numbers_of target.now.structure)
        → News result p (numbers_of target.now.structure) }
{
    new_among(&target.elements(), row, first)
}
