// What a structure says, as bytes.
ghost use Rattle.std.specs.Prelude.{◌≤◌};
ghost use Rattle.definition.specs.Kinds as definition;
ghost use Rattle.group.specs.Sections.{letter_of};
ghost use Rattle.laws.specs.Bytes.{statement_bytes};
ghost use Rattle.naming.specs.Variables.{variables_in};
ghost use Rattle.records.specs.Buffer.{Put, count_limit};
ghost use Rattle.statements.specs.Said.{apps_by, said_by, domains_by};
ghost use Rattle.statements.specs.Structures.{side_from};

use crate::lengths::body_said_length;
use crate::masks::{Masks, SaidAs};
use crate::members::{put_members_bytes, put_type_sets_bytes};
use crate::numbered::Numbered;
use crate::sections::put_own_rows;
use flags::Mask;
use group::ids::Side;
use rule::ids::FIELDS;
use rule::views::{Body, Structure};

// The flagged R rows, A rows and member rows of a structure, as statements of any letter.
pub fn put_apps_bytes(
    out: &mut [u8],
    from: usize,
    letter: u8,
    numbered: Numbered<'_>,
    masks: Masks,
) -> usize
    requires { from ≤ count_limit }
    ensures { Put out.old out.new
        (statement_bytes letter (apps_by numbered.entry.structure.now numbered.entry.vars.now masks)) from result }
{
    let behind_preds = put_own_rows(out, from, letter, numbered, SaidAs::Predicates, masks.preds);
    let behind_funcs = put_own_rows(
        out,
        behind_preds,
        letter,
        numbered,
        SaidAs::Functions,
        masks.funcs,
    );
    put_members_bytes(out, behind_funcs, letter, numbered, masks.members)
}

// The same on a side.
pub fn put_flat_rel_apps(
    out: &mut [u8],
    from: usize,
    side: Side,
    numbered: Numbered<'_>,
    masks: Masks,
) -> usize
    requires { from ≤ count_limit }
    ensures { Put out.old out.new
        (statement_bytes (letter_of side) (apps_by numbered.entry.structure.now numbered.entry.vars.now masks)) from result }
{
    put_apps_bytes(out, from, side.letter(), numbered, masks)
}

// What a structure says, as statements of any letter: the flagged rows and member rows, then the TypeSets of its flagged elements without
// parents. `row` has the variables of its elements, by their places.
pub fn put_said_bytes(
    out: &mut [u8],
    from: usize,
    letter: u8,
    st: &Body<'_>,
    row: &[u16; FIELDS],
    masks: Masks,
) -> usize
    requires { from ≤ count_limit }
    ensures { Put out.old out.new
        (statement_bytes letter (said_by st.now (variables_in st.now row.now) masks)) from result }
{
    // Nothing of it fits: its length is enough.
    if out.len() <= from {
        return body_said_length(from, st, masks);
    }
    let numbered = Numbered::of(st, row);
    let behind_apps = put_apps_bytes(out, from, letter, numbered, masks);
    put_type_sets_bytes(out, behind_apps, letter, numbered, masks.free)
}

// The same on a side, of a structure with a signature.
pub fn put_said(
    out: &mut [u8],
    from: usize,
    side: Side,
    st: &Structure<'_>,
    row: &[u16; FIELDS],
    masks: Masks,
) -> usize
    requires { from ≤ count_limit }
    ensures { Put out.old out.new
        (statement_bytes (letter_of side) (said_by st.now.structure (variables_in st.now.structure row.now) masks)) from result }
{
    put_said_bytes(out, from, side.letter(), &st.body, row, masks)
}

// FuncDomain of each flagged A row, as statements of any letter: the row without its result.
pub fn put_domains_bytes(
    out: &mut [u8],
    from: usize,
    letter: u8,
    st: &Body<'_>,
    row: &[u16; FIELDS],
    mask: Mask,
) -> usize
    requires { from ≤ count_limit }
    ensures { Put out.old out.new
        (statement_bytes letter (domains_by st.now (variables_in st.now row.now) mask)) from result }
{
    let numbered = Numbered::of(st, row);
    put_own_rows(out, from, letter, numbered, SaidAs::Domains, mask)
}

// The same on a side, of a structure with a signature.
pub fn put_domains(
    out: &mut [u8],
    from: usize,
    side: Side,
    st: &Structure<'_>,
    row: &[u16; FIELDS],
    mask: Mask,
) -> usize
    requires { from ≤ count_limit }
    ensures { Put out.old out.new
        (statement_bytes (letter_of side) (domains_by st.now.structure (variables_in st.now.structure row.now) mask)) from result }
{
    put_domains_bytes(out, from, side.letter(), &st.body, row, mask)
}
