// The variables of a structure's elements: a row by the elements' positions, and a table with a row for each structure.
ghost use Rattle.std.specs.Prelude.{◌≡◌, ◌+◌, ◌≤◌, length, take};
ghost use Rattle.definition.specs.Base.{each, given};
ghost use Rattle.definition.specs.Limits.{field_limit, variable_limit};
ghost use Rattle.definition.specs.Names.{numbered};
ghost use Rattle.laws.specs.Numbering as numbering;
ghost use Rattle.naming.specs.Variables.{row_of, taken_by, kept_in};

use rule::ids::{FIELDS, STRUCTURES};
use rule::views::Structure;

// Variables are numbered below this: each element of each structure may have one of its own.
pub const VARIABLES: usize = FIELDS * STRUCTURES;

// Stands in a row behind the variables of the elements.
pub const NO_VAR: u16 = 65535;

// The row of a structure, by what each of its elements takes over: the others get the next numbers.
pub fn assign_structure_el_vars(taken: &[Option<u16>], next: u16) -> [u16; FIELDS]
    requires { (length taken.now ≤ field_limit) × (next + length taken.now ≤ variable_limit) }
    ensures { result ≡ row_of (numbered next (each taken_by taken.now)) }
{
    let mut vars = [NO_VAR; FIELDS];
    let mut number = next;
    for (i, &own) in taken.iter().enumerate() {
        match own {
            Some(var) => vars[i] = var,
            None => {
                vars[i] = number;
                number += 1;
            }
        }
    }
    vars
}

// How many of the first entries of a numbered row are new variables: those from `first` on.
pub fn fresh_in(row: &[u16; FIELDS], count: usize, first: u16) -> u16
    requires { count ≤ field_limit }
    ensures { result ≡ numbering.fresh (kept_in first count row.now) }
{
    let mut n = 0;
    // A loop, since `filter` and `count` are compiled to a step for each element and this to fewer.
    for &var in &row[..count] {
        if first <= var {
            n += 1;
        }
    }
    n
}

// How many elements of a structure have a new variable in its numbered row.
pub fn fresh(st: &Structure<'_>, row: &[u16; FIELDS], first: u16) -> u16
    ensures { result ≡ numbering.fresh (kept_in first (length st.now.structure.elements) row.now) }
{
    fresh_in(row, st.element_count(), first)
}

// Which of the first entries of a numbered row are images, so that they took a variable over.
pub fn images_in(row: &[u16; FIELDS], count: usize, first: u16) -> [bool; FIELDS]
    requires { count ≤ field_limit }
    ensures { take count result ≡ each given (kept_in first count row.now) }
{
    let mut flags = [false; FIELDS];
    for (i, &var) in row[..count].iter().enumerate() {
        flags[i] = var < first;
    }
    flags
}

// Which elements of a structure are images, by its numbered row.
pub fn image_els(st: &Structure<'_>, row: &[u16; FIELDS], first: u16) -> [bool; FIELDS]
    ensures { take (length st.now.structure.elements) result ≡ each given (kept_in first (length st.now.structure.elements) row.now) }
{
    images_in(row, st.element_count(), first)
}
