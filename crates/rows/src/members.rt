// Member rows: the type, the parents and the element, of each element with parents.
ghost use Rattle.std.specs.Prelude.{List, ◌≡◌, ℕ, ◌+◌, ◌≤◌, length, take};
ghost use Rattle.definition.specs.Base.{any, each};
ghost use Rattle.definition.specs.Letters.{member};
ghost use Rattle.definition.specs.Limits.{field_limit, parent_limit};
ghost use Rattle.definition.specs.Rows.{member_row};
ghost use Rattle.definition.specs.Rule.{Row, Pair};
ghost use Rattle.rule.specs.Element.{element_from};
ghost use Rattle.rule.specs.Els.{els_in};
ghost use Rattle.rule.specs.Map.{pairs_from};
ghost use Rattle.rule.specs.Rows.{Alike, has_parents, member_rows};
ghost use Rattle.rows.specs.Table.{Imaged, Holds, Sized, LineOf};
ghost use Rattle.rows.specs.Members.{FewParents, new_member, member_columns};

use crate::table::{Images, Line, add_image, is_image};
use flags::PLACES;
use records::refusal::Refusal;
use rule::element_list::ElementList;
use rule::map::Map;
use rule::views::{Element, Structure};

// The member row of an element.
#[tactic(auto, unfolding(definition::specs::Rows::member_row))]
fn member_line(e: Element<'_>) -> Line<'_>
    ensures { LineOf result (member_row (element_from e.entry)) }
{
    Line {
        symbol: e.ty.0,
        els: e.parents,
        own: Some(e.number),
    }
}

// Has an element of a list a member row?
pub fn has_members_among(els: &ElementList<'_>) -> bool
    ensures { result ≡ any has_parents els.now }
{
    for i in 0..els.count() {
        if els.element(i).parents.count() != 0 {
            return true;
        }
    }
    false
}

// Has a structure any member row?
pub fn has_members(st: &Structure<'_>) -> bool
    ensures { result ≡ any has_parents st.now.structure.elements }
{
    has_members_among(&st.elements())
}

// The images of the member rows of a list's elements, in their order; 26 where an element has none.
pub fn mapped_members_among(
    els: &ElementList<'_>,
    m: &Map<'_>,
    images: &mut Images,
) -> Result<(), Refusal>
    requires { FewParents els.now }
    ensures imaged { Imaged result (pairs_from m.now) (member_rows els.now) images.new }
    ensures sized { Sized images.new }
{
    images.count = 0;
    for i in 0..els.count() {
        let e = els.element(i);
        if e.parents.count() == 0 {
            continue;
        }
        add_image(member_line(e), m, images)?;
    }
    Ok(())
}

// Those of a structure.
pub fn mapped_members(st: &Structure<'_>, m: &Map<'_>, images: &mut Images) -> Result<(), Refusal>
    ensures imaged { Imaged result (pairs_from m.now) (member_rows st.now.structure.elements) images.new }
    ensures sized { Sized images.new }
{
    mapped_members_among(&st.elements(), m, images)
}

// Has an element a member row that is none of those in the table?
fn is_new_member(e: Element<'_>, images: &Images) -> bool
    requires { (images.now.count ≤ field_limit) × (length (els_in e.parents) ≤ parent_limit) }
    ensures { (columns : ℕ → ℕ) (pairs : List Pair) (sources : List Row) → Holds member columns pairs sources images.now
        → ((length (els_in e.entry.parents) ≡ 0 → ⊥) → length (els_in e.entry.parents) + 1 ≡ columns e.entry.ty.0)
        → result ≡ new_member pairs sources (element_from e.entry) }
{
    e.parents.count() != 0 && !is_image(member_line(e), images)
}

// Which elements of a list have a member row that is no image of one of the source.
pub fn new_members_among(els: &ElementList<'_>, images: &Images) -> [bool; PLACES]
    requires images { images.now.count ≤ field_limit }
    requires parents { FewParents els.now }
    ensures { (columns : ℕ → ℕ) (pairs : List Pair) (sources : List Row) → Holds member columns pairs sources images.now
        → Alike member columns (member_rows els.now) → take (length els.now) result ≡ each (new_member pairs sources) els.now }
{
    let mut flags = [false; PLACES];
    for i in 0..els.count() {
        flags[i] = is_new_member(els.element(i), images);
    }
    flags
}

// Which elements of a structure have a new member row.
pub fn new_members(st: &Structure<'_>, images: &Images) -> [bool; PLACES]
    requires { images.now.count ≤ field_limit }
    ensures alike { Alike member (member_columns st.now.sig) (member_rows st.now.structure.elements) }
    ensures flags { (columns : ℕ → ℕ) (pairs : List Pair) (sources : List Row) → Holds member columns pairs sources images.now
        → Alike member columns (member_rows st.now.structure.elements)
        → take (length st.now.structure.elements) result ≡ each (new_member pairs sources) st.now.structure.elements }
{
    new_members_among(&st.elements(), images)
}
