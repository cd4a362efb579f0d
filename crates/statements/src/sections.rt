// The rows of a structure as statements.
ghost use Rattle.std.specs.Prelude.{◌≤◌, length};
ghost use Rattle.definition.specs.Kinds.{variable_in};
ghost use Rattle.definition.specs.Limits.{column_limit};
ghost use Rattle.definition.specs.Rows.{row_statement};
ghost use Rattle.definition.specs.Writer.{statement_field, field_bytes};
ghost use Rattle.group.specs.Sections.{letter_of};
ghost use Rattle.laws.specs.Bytes.{statement_bytes};
ghost use Rattle.records.specs.Buffer.{Put, count_limit};
ghost use Rattle.rule.specs.Els.{els_in};
ghost use Rattle.rule.specs.Row.{row_from};
ghost use Rattle.statements.specs.Parts.{of_kind, rows_said, rows_kinded};
ghost use Rattle.statements.specs.Structures.{side_from};

use crate::lengths::body_rows_length;
use crate::masks::SaidAs;
use crate::numbered::Numbered;
use flags::{Mask, flag, none_set};
use group::ids::Side;
use group::write::put_head_bytes;
use records::write::{past, put_num};
use rule::row::Row;

// A row as a statement of a kind at the front of a buffer, each variable written as it is found.
fn write_row(out: &mut [u8], letter: u8, kind: u8, numbered: Numbered<'_>, row: Row<'_>) -> usize
    requires { length (els_in row.els) ≤ column_limit }
    ensures { Put out.old out.new (field_bytes (statement_field letter
        (row_statement (variable_in (side_from numbered.entry)) (of_kind kind (row_from row.entry))))) 0 result }
{
    let els = row.els;
    let count = els.count();
    let mut at = put_head_bytes(out, letter, kind, row.relation.number(), count);
    for i in 0..count {
        at = put_num(out, at, numbered.var_of(els.at(i)));
    }
    at
}

// The same, from a position on.
fn put_row(
    out: &mut [u8],
    from: usize,
    letter: u8,
    kind: u8,
    numbered: Numbered<'_>,
    row: Row<'_>,
) -> usize
    requires { (from ≤ count_limit) × (length (els_in row.els) ≤ column_limit) }
    ensures { Put out.old out.new (field_bytes (statement_field letter
        (row_statement (variable_in (side_from numbered.entry)) (of_kind kind (row_from row.entry))))) from result }
{
    let rest = from.min(out.len());
    let len = write_row(&mut out[rest..], letter, kind, numbered, row);
    past(from, len)
}

// The flagged rows of a structure as statements of a kind, along their section.
fn put_section(
    out: &mut [u8],
    from: usize,
    letter: u8,
    kind: u8,
    numbered: Numbered<'_>,
    said: SaidAs,
    mask: Mask,
) -> usize
    requires { from ≤ count_limit }
    ensures { Put out.old out.new (statement_bytes letter (rows_kinded (side_from numbered.entry) (λ _. kind) said mask)) from result }
{
    let mut at = from;
    for (i, row) in said.rows(numbered.structure).enumerate() {
        if flag(mask, i) {
            at = put_row(out, at, letter, kind, numbered, said.part(row));
        }
    }
    at
}

// The flagged rows of a structure as statements of any letter, and of any byte as their kind.
pub fn put_rows_bytes(
    out: &mut [u8],
    from: usize,
    letter: u8,
    kind: u8,
    numbered: Numbered<'_>,
    said: SaidAs,
    mask: Mask,
) -> usize
    requires { from ≤ count_limit }
    ensures { Put out.old out.new (statement_bytes letter (rows_kinded (side_from numbered.entry) (λ _. kind) said mask)) from result }
{
    // Nothing of them fits: their length is enough.
    if out.len() <= from {
        return body_rows_length(from, numbered.structure, said, mask);
    }
    // No flag is set: nothing is said, and the section need not be gone along.
    if none_set(mask) {
        return from;
    }
    put_section(out, from, letter, kind, numbered, said, mask)
}

// The flagged rows of a structure as statements of any letter, each of its own kind.
pub fn put_own_rows(
    out: &mut [u8],
    from: usize,
    letter: u8,
    numbered: Numbered<'_>,
    said: SaidAs,
    mask: Mask,
) -> usize
    requires { from ≤ count_limit }
    ensures { Put out.old out.new (statement_bytes letter (rows_said (side_from numbered.entry) said mask)) from result }
{
    // Looking into the structure tells the proof of which kind its rows are.
    let st = numbered.structure;
    let _ = &st.number;
    put_rows_bytes(out, from, letter, said.kind(), numbered, said, mask)
}

// The same on a side.
pub fn put_rows(
    out: &mut [u8],
    from: usize,
    side: Side,
    numbered: Numbered<'_>,
    said: SaidAs,
    mask: Mask,
) -> usize
    requires { from ≤ count_limit }
    ensures { Put out.old out.new (statement_bytes (letter_of side) (rows_said (side_from numbered.entry) said mask)) from result }
{
    put_own_rows(out, from, side.letter(), numbered, said, mask)
}
