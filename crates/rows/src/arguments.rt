// Constrained elements: arguments and results, not parents, of R and A rows.
ghost use Rattle.std.specs.Prelude.{List, ◌++◌, ◌≡◌, ℕ, length, take};
ghost use Rattle.definition.specs.Base.{each, joined};
ghost use Rattle.definition.specs.Names.{numbers_of};
ghost use Rattle.definition.specs.Rule as definition;
ghost use Rattle.definition.specs.Rows.{arguments, constrained};
ghost use Rattle.flags.specs.Flags.{places};
ghost use Rattle.rule.specs.Els.{els_in};
ghost use Rattle.rule.specs.Row.{row_from, rows_left};
ghost use Rattle.rule.specs.Views as views;
ghost use Rattle.rule.specs.Views.{listed_numbers};
ghost use Rattle.rows.specs.Arguments.{Listed, AllListed, Marks};

use flags::PLACES;
use rule::element_list::ElementList;
use rule::els::Els;
use rule::row::{Row, Rows};
use rule::views::Structure;
use signature::ids::Relation;
use signature::lookup::Signature;

// A row's elements behind the parents.
#[tactic(auto, unfolding(definition::specs::Rows::arguments))]
fn arguments<'a>(sig: &Signature<'_>, row: Row<'a>) -> Els<'a>
    requires { Listed sig.now (row_from row) }
    ensures { els_in result ≡ arguments sig.now (row_from row.entry) }
{
    let parents = match row.relation {
        Relation::Predicate(p) => sig.pred_parents(p),
        Relation::Function(f) | Relation::FuncDomain(f) => sig.func_parents(f),
        Relation::Member(_) | Relation::Equality(_) | Relation::TypeSet(_) => 0,
    };
    row.els.behind(parents)
}

// The elements that a row lists are marked, by their places among those of a list.
fn mark(els: &ElementList<'_>, l: Els<'_>, flags: &mut [bool; PLACES])
    requires { views.Listed els.now }
    ensures { (seen : List ℕ) → Marks flags.old (listed_numbers els.now) seen
        → Marks flags.new (listed_numbers els.now) (seen ++ els_in l.entry) }
{
    for j in 0..l.count() {
        if let Some(i) = els.find_element(l.at(j)) {
            flags[i] = true;
        }
    }
}

// The arguments of rows are marked.
fn mark_rows(sig: &Signature<'_>, els: &ElementList<'_>, rows: Rows<'_>, flags: &mut [bool; PLACES])
    requires listed { views.Listed els.now }
    requires rows { AllListed sig.now (rows_left rows) }
    ensures { (seen : List ℕ) → Marks flags.old (listed_numbers els.now) seen
        → Marks flags.new (listed_numbers els.now) (seen ++ joined (arguments sig.now) (rows_left rows.entry)) }
{
    for row in rows {
        mark(els, arguments(sig, row), flags);
    }
}

// Which elements of a list are constrained by rows, by their places.
pub fn constrained_among(
    sig: &Signature<'_>,
    els: &ElementList<'_>,
    preds: Rows<'_>,
    funcs: Rows<'_>,
) -> [bool; PLACES]
    requires preds { AllListed sig.now (rows_left preds) }
    requires funcs { AllListed sig.now (rows_left funcs) }
    ensures { (st : definition.Structure) → numbers_of st ≡ listed_numbers els.now → st.pred_rows ≡ rows_left preds.entry
        → st.func_rows ≡ rows_left funcs.entry → take (length els.now) result ≡ each (constrained sig.now st) (numbers_of st) }
{
    let _ = &els.number;
    let mut flags = [false; PLACES];
    mark_rows(sig, els, preds, &mut flags);
    mark_rows(sig, els, funcs, &mut flags);
    flags
}

// Which elements of a structure are constrained, by their places.
pub fn constrained_els(st: &Structure<'_>) -> [bool; PLACES]
    ensures { take (length st.now.structure.elements) result ≡ each (constrained st.now.sig st.now.structure) (numbers_of st.now.structure) }
{
    constrained_among(st.sig, &st.elements(), st.pred_rows(), st.func_rows())
}
