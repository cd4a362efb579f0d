// The elements of a structure as statements: member rows, and TypeSets.
ghost use Rattle.std.specs.Prelude.{◌≤◌, ◌<◌, ◌∷◌, [], length, get_or};
ghost use Rattle.definition.specs.Kinds.{variable_in};
ghost use Rattle.definition.specs.Rows.{row_statement};
ghost use Rattle.definition.specs.Writer.{statement_field, field_bytes};
ghost use Rattle.group.specs.Sections.{letter_of};
ghost use Rattle.laws.specs.Bytes.{statement_bytes};
ghost use Rattle.records.specs.Buffer.{Put, count_limit};
ghost use Rattle.rows.specs.Members.{member_in};
ghost use Rattle.rule.specs.Views.{no_element};
ghost use Rattle.statements.specs.Said.{flagged};
ghost use Rattle.statements.specs.Parts.{members_said, type_set_of, types_said};
ghost use Rattle.statements.specs.Structures.{side_from};

use crate::numbered::Numbered;
use flags::{Mask, flag, none_set};
use group::ids::Side;
use group::write::{put_head_bytes, put_statement_bytes};
use records::write::{past, put_num};
use rows::order::members_in_order;
use signature::ids::{MEMBER, TYPE_SET, TypeId};

// How many variables a TypeSet has.
const TYPE_SET_VARS: usize = 1;

// The member row of an element: its type, its parents and itself.
fn put_member(out: &mut [u8], from: usize, letter: u8, numbered: Numbered<'_>, i: usize) -> usize
    requires { (from ≤ count_limit) × (i < length numbered.structure.now.elements) }
    ensures { Put out.old out.new (field_bytes (statement_field letter
        (row_statement (variable_in (side_from numbered.entry)) (member_in numbered.entry.structure.now i)))) from result }
{
    let e = numbered.structure.element(i);
    let parents = e.parents.count();
    let mut vars = numbered.vars_of(e.parents);
    vars[parents] = numbered.vars[i];
    put_statement_bytes(out, from, letter, MEMBER, e.ty.0, &vars[..parents + 1])
}

// The flagged member rows, in their order; a row's flag stands at its element's place.
pub fn put_members_bytes(
    out: &mut [u8],
    from: usize,
    letter: u8,
    numbered: Numbered<'_>,
    mask: Mask,
) -> usize
    requires { from ≤ count_limit }
    ensures { Put out.old out.new (statement_bytes letter (members_said (side_from numbered.entry) mask)) from result }
{
    // No flag is set: nothing is said, and the members need not be sorted.
    if none_set(mask) {
        return from;
    }
    let members = members_in_order(numbered.structure);
    let mut at = from;
    for place in &members.order[..members.count] {
        let i = usize::from(*place);
        if flag(mask, i) {
            at = put_member(out, at, letter, numbered, i);
        }
    }
    at
}

// The same on a side.
pub fn put_members(
    out: &mut [u8],
    from: usize,
    side: Side,
    numbered: Numbered<'_>,
    mask: Mask,
) -> usize
    requires { from ≤ count_limit }
    ensures { Put out.old out.new (statement_bytes (letter_of side) (members_said (side_from numbered.entry) mask)) from result }
{
    put_members_bytes(out, from, side.letter(), numbered, mask)
}

// A TypeSet at the front of a buffer.
fn write_type_set(out: &mut [u8], letter: u8, ty: TypeId, v: u16) -> usize
    ensures { Put out.old out.new (field_bytes (statement_field letter (type_set_of ty.0 v))) 0 result }
{
    let at = put_head_bytes(out, letter, TYPE_SET, ty.0, TYPE_SET_VARS);
    put_num(out, at, v)
}

// The TypeSet of an element, if it has no parents.
fn put_type_set(out: &mut [u8], from: usize, letter: u8, numbered: Numbered<'_>, i: usize) -> usize
    requires { (from ≤ count_limit) × (i < length numbered.structure.now.elements) }
    ensures { Put out.old out.new (statement_bytes letter (types_said (side_from numbered.entry)
        (get_or numbered.entry.structure.now.elements i no_element ∷ []))) from result }
{
    let e = numbered.structure.element(i);
    if e.parents.count() != 0 {
        return from;
    }
    let rest = from.min(out.len());
    let len = write_type_set(&mut out[rest..], letter, e.ty, numbered.vars[i]);
    past(from, len)
}

// The TypeSets of the flagged elements without parents.
pub fn put_type_sets_bytes(
    out: &mut [u8],
    from: usize,
    letter: u8,
    numbered: Numbered<'_>,
    mask: Mask,
) -> usize
    requires { from ≤ count_limit }
    ensures { Put out.old out.new (statement_bytes letter (types_said (side_from numbered.entry)
        (flagged mask numbered.entry.structure.now.elements))) from result }
{
    // No flag is set: nothing is said, and the elements need not be gone along.
    if none_set(mask) {
        return from;
    }
    let mut at = from;
    for i in 0..numbered.structure.element_count() {
        if flag(mask, i) {
            at = put_type_set(out, at, letter, numbered, i);
        }
    }
    at
}

// The same on a side.
pub fn put_type_sets(
    out: &mut [u8],
    from: usize,
    side: Side,
    numbered: Numbered<'_>,
    mask: Mask,
) -> usize
    requires { from ≤ count_limit }
    ensures { Put out.old out.new (statement_bytes (letter_of side) (types_said (side_from numbered.entry)
        (flagged mask numbered.entry.structure.now.elements))) from result }
{
    put_type_sets_bytes(out, from, side.letter(), numbered, mask)
}
