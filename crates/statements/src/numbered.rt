// A structure with the variables of its elements.
ghost use Rattle.std.specs.Prelude.{◌≡◌, ℕ, ◌≤◌, ◌<◌, length, get_or, take};
ghost use Rattle.definition.specs.Base.{each};
ghost use Rattle.definition.specs.Limits.{field_limit, column_limit};
ghost use Rattle.definition.specs.Names.{numbers_of, variable_at};
ghost use Rattle.definition.specs.Rule as definition;
ghost use Rattle.rule.specs.Els.{els_in};
ghost use Rattle.rule.specs.Views.{listed_numbers};

use rule::element_list::ElementList;
use rule::els::Els;
use rule::ids::{ElId, FIELDS};
use rule::views::{Body, Structure};
use signature::ids::COLUMNS;

// The variable of an element of a list, whose variables stand in its order; where the list has no such element, 0.
pub fn var_among(elements: &ElementList<'_>, vars: &[u16], e: ElId) -> u16
    requires { length vars.now ≡ length elements.now }
    ensures { (structure : definition.Structure) → numbers_of structure ≡ listed_numbers elements.now
        → result ≡ variable_at structure vars.now e.0 }
{
    match elements.find_element(e) {
        Some(i) => vars[i],
        None => 0,
    }
}

// The variables of several, in their order.
pub fn vars_among(elements: &ElementList<'_>, vars: &[u16], els: Els<'_>) -> [u16; COLUMNS]
    requires many { length vars.now ≡ length elements.now }
    requires few { length (els_in els) ≤ column_limit }
    ensures { (structure : definition.Structure) → numbers_of structure ≡ listed_numbers elements.now
        → take (length (els_in els.entry)) result ≡ each (variable_at structure vars.now) (els_in els.entry) }
{
    let mut found = [0u16; COLUMNS];
    for i in 0..els.count() {
        found[i] = var_among(elements, vars, els.at(i));
    }
    found
}

// The variables stand in the order of the elements. In contracts it is the definition's side.
#[derive(Clone, Copy)]
pub struct Numbered<'a> {
    pub structure: &'a Body<'a>,
    pub vars: &'a [u16],
    ghost many: { length vars.now ≡ length structure.now.elements },
    ghost few: { length structure.now.elements ≤ field_limit },
    ghost ascend: { (i j : ℕ) → i < j → j < length (numbers_of structure.now)
        → get_or (numbers_of structure.now) i 0 < get_or (numbers_of structure.now) j 0 },
}

impl<'a> Numbered<'a> {
    ghost use Rattle.definition.specs.Kinds.{variable_in};
    ghost use Rattle.statements.specs.Structures.{side_of, side_from};

    // By a row that has the variables at its front.
    pub fn of(structure: &'a Body<'a>, row: &'a [u16; FIELDS]) -> Numbered<'a>
        ensures { side_from result ≡ side_of structure.now row.now }
    {
        Numbered {
            structure,
            vars: &row[..structure.element_count()],
        }
    }

    // The same of a structure with a signature.
    pub fn new(structure: &'a Structure<'a>, row: &'a [u16; FIELDS]) -> Numbered<'a>
        ensures { side_from result ≡ side_of structure.now.structure row.now }
    {
        Numbered::of(&structure.body, row)
    }

    // The variable of an element; where the structure has no such element, which no accepted rule asks for, 0.
    pub fn var_of(self, e: ElId) -> u16
        ensures { result ≡ variable_in (side_from self.entry) e.0 }
    {
        var_among(&self.structure.elements(), self.vars, e)
    }

    // The variables of several, in their order.
    pub fn vars_of(self, els: Els<'_>) -> [u16; COLUMNS]
        requires { length (els_in els) ≤ column_limit }
        ensures { take (length (els_in els.entry)) result ≡ each (variable_in (side_from self.entry)) (els_in els.entry) }
    {
        vars_among(&self.structure.elements(), self.vars, els)
    }
}
