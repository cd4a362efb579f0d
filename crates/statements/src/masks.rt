// Which rows, members and elements of a structure are meant, a flag for each place, and what its rows are said as.
ghost use Rattle.std.specs.Prelude.{◌≡◌};
ghost use Rattle.rows.specs.Table.{Short};
ghost use Rattle.rule.specs.Row.{row_from, rows_left};
ghost use Rattle.statements.specs.Parts.{rows_as, part_as, kind_said};

use flags::Mask;
use rule::row::{Row, Rows};
use rule::views::Body;
use signature::ids::{FUNC_DOMAIN, FUNCTION, FuncId, PREDICATE, Relation};

// Those of a structure.
#[derive(Clone, Copy)]
pub struct Masks {
    pub preds: Mask,
    pub funcs: Mask,
    pub members: Mask,
    pub free: Mask,
}

// What rows are said as: R rows as they are, and A rows as they are or, without their results, as domains.
#[derive(Clone, Copy)]
pub enum SaidAs {
    Predicates,
    Functions,
    Domains,
}

impl SaidAs {
    // The kind that they are said as.
    pub fn kind(self) -> u8
        ensures { result ≡ kind_said self }
    {
        match self {
            SaidAs::Predicates => PREDICATE,
            SaidAs::Functions => FUNCTION,
            SaidAs::Domains => FUNC_DOMAIN,
        }
    }

    // The rows of a structure that are said so.
    pub fn rows<'a>(self, st: &Body<'a>) -> Rows<'a>
        ensures value { rows_left result ≡ rows_as self st.now }
        ensures short { Short (rows_as self st.now) }
    {
        // Looking into the structure tells the proof that it is well formed.
        let _ = &st.number;
        match self {
            SaidAs::Predicates => st.pred_rows(),
            SaidAs::Functions | SaidAs::Domains => st.func_rows(),
        }
    }

    // What is said of a row: a domain is said of the function, without the result.
    #[tactic(auto, using(crate::proofs::Rows::but_last_is))]
    pub fn part<'a>(self, row: Row<'a>) -> Row<'a>
        ensures { row_from result ≡ part_as self (row_from row.entry) }
    {
        match self {
            SaidAs::Predicates | SaidAs::Functions => row,
            SaidAs::Domains => Row {
                relation: Relation::FuncDomain(FuncId(row.relation.number())),
                els: row.els.first(row.els.count().saturating_sub(1)),
            },
        }
    }
}
