// Rows: the R and A fields, of a symbol and elements.
ghost use Rattle.std.specs.Prelude.{◌≡◌, ℕ, true, []};
ghost use Rattle.signature.specs.Relations.{kind_of, number_of};
ghost use Rattle.rule.specs.Row.{row_kind, row_from, RowOf};

use crate::els::Els;
use records::fields::num;
use records::iter::Fields;
use signature::ids::{FuncId, PredId, Relation};

// What the rows of a section are about: R rows predicates, A rows functions.
#[derive(Clone, Copy, PartialEq, Eq)]
pub enum RowKind {
    Predicate,
    Function,
}

// What a row is about, by its number.
pub fn row_relation(kind: RowKind, number: u16) -> Relation
    ensures { (kind_of result ≡ row_kind kind) × (number_of result ≡ number) }
{
    match kind {
        RowKind::Predicate => Relation::Predicate(PredId(number)),
        RowKind::Function => Relation::Function(FuncId(number)),
    }
}

// A row's symbol and its elements.
#[derive(Clone, Copy)]
pub struct Row<'a> {
    pub relation: Relation,
    pub els: Els<'a>,
}

// The row that a content says. One without a symbol's two bytes, which no accepted rule has, says symbol 0 and no elements.
#[tactic(auto, using(crate::proofs::RowContents::row_short, crate::proofs::RowContents::row_long))]
pub fn read_row<'a>(kind: RowKind, content: &'a [u8]) -> Row<'a>
    ensures { RowOf kind content.now result }
{
    if content.len() < 2 {
        let (none, _) = content.split_at(0);
        return Row {
            relation: row_relation(kind, 0),
            els: Els { bytes: none },
        };
    }
    let (_, bytes) = content.split_at(2);
    Row {
        relation: row_relation(kind, num(content, 0)),
        els: Els { bytes },
    }
}

// The rows of a section, front to back.
#[derive(Clone, Copy)]
pub struct Rows<'a> {
    pub(crate) fields: Fields<'a>,
    pub(crate) kind: RowKind,
}

impl<'a> Rows<'a> {
    ghost use Rattle.definition.specs.Base.{each};
    ghost use Rattle.definition.specs.Rule.{row_of};
    ghost use Rattle.records.specs.Iter.{fields_in};
    ghost use Rattle.rule.specs.Row.{rows_left};

    // Those of a section's bytes.
    pub fn new(section: &'a [u8], kind: RowKind) -> Rows<'a>
        ensures { rows_left result ≡ each (row_of (row_kind kind)) (fields_in section.now) }
    {
        Rows {
            fields: Fields::new(section),
            kind,
        }
    }

    // Has it no rows?
    pub fn is_empty(&self) -> bool
        ensures { result ≡ true → rows_left self.now ≡ [] }
    {
        self.fields.rest().is_empty()
    }
}

impl<'a> Iterator for Rows<'a> {
    ghost use Rattle.std.specs.Iterator.{YieldsFirstBy, item_count};
    ghost use Rattle.rule.specs.Row.{row_from, rows_left};

    type Item = Row<'a>;

    ghost next_gives = { YieldsFirstBy row_from rows_left };

    ghost remaining = { item_count rows_left };

    #[inline]
    fn next(&mut self) -> Option<Row<'a>> {
        let f = self.fields.next()?;
        Some(read_row(self.kind, f.content))
    }
}
