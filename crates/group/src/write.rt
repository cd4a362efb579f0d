// The fields of a group as bytes: the heads of G, W and U fields, behind which a name follows, and statements whole.
ghost use Rattle.std.specs.Prelude.{◌≡◌, ℕ, ◌+◌, ◌≤◌, ◌<◌, length};
ghost use Rattle.definition.specs.Group as definition;
ghost use Rattle.definition.specs.Letters.{letter_g, letter_u};
ghost use Rattle.definition.specs.Limits.{column_limit};
ghost use Rattle.definition.specs.Writer.{statement_field, field_bytes};
ghost use Rattle.records.specs.Buffer.{Put, capped, count_limit, head_bytes};
ghost use Rattle.signature.specs.Relations.{kind_of, number_of};
ghost use Rattle.group.specs.Sections.{letter_of};
ghost use Rattle.group.specs.Written.{stated, said, variable_head, statement_head};

use crate::ids::{BEFORE_VARS, LETTER_G, LETTER_U, LETTER_W, NAME_AT, Side, VARS_AT};
use crate::statement::Statement;
use records::write::{past, put_byte, put_field_head, put_num};
use signature::ids::{Relation, TypeId};

// The head of a G field: a name of so many bytes follows.
pub fn put_group_head(out: &mut [u8], from: usize, name: u16) -> usize
    requires { from ≤ count_limit }
    ensures { Put out.old out.new (head_bytes letter_g name) from result }
{
    put_field_head(out, from, LETTER_G, name)
}

// The head of a U field, behind which a name follows too.
pub fn put_rule_head(out: &mut [u8], from: usize, name: u16) -> usize
    requires { from ≤ count_limit }
    ensures { Put out.old out.new (head_bytes letter_u name) from result }
{
    put_field_head(out, from, LETTER_U, name)
}

// The head of a W field and the variable's type; a name of so many bytes follows.
pub fn put_variable_head(out: &mut [u8], from: usize, ty: TypeId, name: u16) -> usize
    requires { (from ≤ count_limit) × (name < 256) }
    ensures { Put out.old out.new (variable_head ty.0 name) from result }
{
    let head = put_field_head(out, from, LETTER_W, NAME_AT as u16 + name);
    put_num(out, head, ty.0)
}

// What stands before a statement's variables, at the front of a buffer: the head of its field, its kind, its symbol. Of any letter and kind.
pub fn put_head_bytes(out: &mut [u8], letter: u8, kind: u8, symbol: u16, count: usize) -> usize
    requires { count ≤ column_limit }
    ensures { Put out.old out.new (statement_head letter kind symbol count) 0 result }
{
    let head = put_field_head(out, 0, letter, (VARS_AT + 2 * count) as u16);
    let behind = put_byte(out, head, kind);
    put_num(out, behind, symbol)
}

// The same of a statement on a side.
pub fn put_statement_head(out: &mut [u8], side: Side, relation: Relation, count: usize) -> usize
    requires { count ≤ column_limit }
    ensures { Put out.old out.new
        (statement_head (letter_of side) (kind_of relation) (number_of relation) count) 0 result }
{
    put_head_bytes(
        out,
        side.letter(),
        relation.kind(),
        relation.number(),
        count,
    )
}

// A statement at the front of a buffer.
fn write_statement(out: &mut [u8], letter: u8, kind: u8, symbol: u16, vars: &[u16]) -> usize
    requires { length vars.now ≤ column_limit }
    ensures { Put out.old out.new (field_bytes (statement_field letter (stated kind symbol vars.now))) 0 result }
{
    let mut at = put_head_bytes(out, letter, kind, symbol, vars.len());
    for v in vars {
        at = put_num(out, at, *v);
    }
    at
}

// A statement of any letter and kind, written into the rest of the buffer from its own start. Only the variables that it has are lent.
pub fn put_statement_bytes(
    out: &mut [u8],
    from: usize,
    letter: u8,
    kind: u8,
    symbol: u16,
    vars: &[u16],
) -> usize
    requires { (from ≤ count_limit) × (length vars.now ≤ column_limit) }
    ensures { Put out.old out.new (field_bytes (statement_field letter (stated kind symbol vars.now))) from result }
{
    let rest = from.min(out.len());
    let len = write_statement(&mut out[rest..], letter, kind, symbol, vars);
    past(from, len)
}

// The same of a statement on a side.
pub fn put_statement(out: &mut [u8], from: usize, side: Side, x: Statement) -> usize
    requires { (from ≤ count_limit) × (x.count ≤ column_limit) }
    ensures { Put out.old out.new (field_bytes (statement_field (letter_of side) (said x))) from result }
{
    let vars = &x.vars[..x.count];
    put_statement_bytes(
        out,
        from,
        side.letter(),
        x.relation.kind(),
        x.relation.number(),
        vars,
    )
}

// Where a statement with so many variables ends. Where nothing of it fits no more than that counts, and its variables need not be
// looked up.
pub fn counted(from: usize, count: usize) -> usize
    requires { (from ≤ count_limit) × (count ≤ column_limit) }
    ensures by_index { (letter : ℕ) (x : definition.Statement) → length x.variables ≡ count
        → result ≡ capped (from + length (field_bytes (statement_field letter x))) }
    ensures upper_bound { result ≤ count_limit }
{
    past(from, BEFORE_VARS + 2 * count)
}
