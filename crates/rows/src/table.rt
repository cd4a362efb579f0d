// The images of rows in a table: a symbol for each row, and places for its elements.
ghost use Rattle.std.specs.Prelude.{List, ◌≡◌, ℕ, ◌+◌, ◌≤◌, ◌<◌, length, take};
ghost use Rattle.definition.specs.Base.{any, each, same_list};
ghost use Rattle.definition.specs.Limits.{field_limit, column_limit};
ghost use Rattle.definition.specs.Rule as definition;
ghost use Rattle.definition.specs.Rule.{Pair};
ghost use Rattle.definition.specs.Rows.{same_row};
ghost use Rattle.flags.specs.Flags.{Packed};
ghost use Rattle.signature.specs.Relations.{number_of};
ghost use Rattle.rule.specs.Els.{els_in};
ghost use Rattle.rule.specs.Map.{pairs_from};
ghost use Rattle.rule.specs.Row.{row_from, rows_left};
ghost use Rattle.rule.specs.Rows.{Alike};
ghost use Rattle.rows.specs.Table.{Maps, Adds, Imaged, Held, Holds, Short, Sized, LineOf, is_new, line_els};

use flags::{Mask, NO_FLAGS, with_flag};
use records::refusal::Refusal;
use rule::els::Els;
use rule::ids::{ElId, FIELDS};
use rule::map::Map;
use rule::row::{Row, Rows};
use signature::ids::{COLUMNS, Relation};

// Rows of a kind in a structure.
pub const ROWS: usize = FIELDS;

// The images of the first rows: their symbols, and their elements from the first place on.
#[derive(Clone, Copy)]
pub struct Images {
    pub symbols: [u16; ROWS],
    pub els: [[u16; COLUMNS]; ROWS],
    pub count: usize,
}

// A table with no images.
pub fn no_images() -> Images
    ensures none { result.count ≡ 0 }
    ensures sized { Sized result }
{
    Images {
        symbols: [0; ROWS],
        els: [[0; COLUMNS]; ROWS],
        count: 0,
    }
}

// A row that is mapped or compared: its symbol and its elements; that of a member has its element behind its parents.
#[derive(Clone, Copy)]
pub struct Line<'a> {
    pub symbol: u16,
    pub els: Els<'a>,
    pub own: Option<ElId>,
}

// An R or A row.
fn row_line(row: Row<'_>) -> Line<'_>
    ensures { LineOf result (row_from row.entry) }
{
    Line {
        symbol: row.relation.number(),
        els: row.els,
        own: None,
    }
}

// The images of the elements of a list; 26 where one has none. The map comes by value: behind a reference it would be read anew for each
// element, since the places are written meanwhile.
fn map_elements(l: Els<'_>, m: Map<'_>, places: &mut [u16; COLUMNS]) -> Result<(), Refusal>
    requires { length (els_in l) ≤ column_limit }
    ensures { Maps result (pairs_from m.entry) (els_in l.entry) places.new }
{
    for j in 0..l.count() {
        let e = m.image_of(l.at(j)).ok_or(Refusal::UnmappedElement)?;
        places[j] = e.0;
    }
    Ok(())
}

// Those of the elements of a row.
#[inline]
fn map_line(line: Line<'_>, m: &Map<'_>, places: &mut [u16; COLUMNS]) -> Result<(), Refusal>
    requires { length (line_els line) ≤ column_limit }
    ensures { Maps result (pairs_from m.now) (line_els line.entry) places.new }
{
    map_elements(line.els, *m, places)?;
    let Some(own) = line.own else {
        return Ok(());
    };
    let e = m.image_of(own).ok_or(Refusal::UnmappedElement)?;
    places[line.els.count()] = e.0;
    Ok(())
}

// The image of a row goes into the table, behind those that are there; 26 where an element has none.
#[inline]
pub(crate) fn add_image(line: Line<'_>, m: &Map<'_>, images: &mut Images) -> Result<(), Refusal>
    requires { (images.old.count < field_limit) × (length (line_els line) ≤ column_limit) }
    ensures adds { Adds result (pairs_from m.now) line.entry images.old images.new }
    ensures sized { Sized images.new }
{
    let i = images.count;
    map_line(line, m, &mut images.els[i])?;
    images.symbols[i] = line.symbol;
    images.count = i + 1;
    Ok(())
}

// The images of R or A rows; 26 where an element has none.
pub fn mapped_rel_apps(rows: Rows<'_>, m: &Map<'_>, images: &mut Images) -> Result<(), Refusal>
    requires { Short (rows_left rows) }
    ensures imaged { Imaged result (pairs_from m.now) (rows_left rows.entry) images.new }
    ensures sized { Sized images.new }
{
    images.count = 0;
    for row in rows {
        add_image(row_line(row), m, images)?;
    }
    Ok(())
}

// Are the elements of a list those in the first places?
fn same_elements(l: Els<'_>, places: &[u16; COLUMNS]) -> bool
    requires { length (els_in l) ≤ column_limit }
    ensures { result ≡ same_list (els_in l.entry) (take (length (els_in l.entry)) places.now) }
{
    for j in 0..l.count() {
        if l.at(j).0 != places[j] {
            return false;
        }
    }
    true
}

// Are those of a row?
#[inline]
fn same_line(line: Line<'_>, places: &[u16; COLUMNS]) -> bool
    requires { length (line_els line) ≤ column_limit }
    ensures { result ≡ same_list (line_els line.entry) (take (length (line_els line.entry)) places.now) }
{
    let own = match line.own {
        Some(e) => places[line.els.count()] == e.0,
        None => true,
    };
    own && same_elements(line.els, places)
}

// Is a row one of those in the table? Rows of one symbol are of one length, so only those of its symbol are compared with it.
#[inline]
pub fn is_image(line: Line<'_>, images: &Images) -> bool
    requires { (images.now.count ≤ field_limit) × (length (line_els line) ≤ column_limit) }
    ensures { (columns : ℕ → ℕ) (r : definition.Row) (qs : List definition.Row) → LineOf line.entry r → Held images.now qs
        → Alike r.kind columns qs → length r.elements ≡ columns r.symbol → result ≡ any (same_row r) qs }
{
    for i in 0..images.count {
        if images.symbols[i] == line.symbol && same_line(line, &images.els[i]) {
            return true;
        }
    }
    false
}

// Which R or A rows are no image of a row of the source: a flag for each.
pub fn new_rows(rows: Rows<'_>, images: &Images) -> Mask
    requires { (images.now.count ≤ field_limit) × Short (rows_left rows) }
    ensures { (kind : ℕ) (columns : ℕ → ℕ) (pairs : List Pair) (sources : List definition.Row)
        → Holds kind columns pairs sources images.now → Alike kind columns (rows_left rows.entry)
        → Packed result (each (is_new pairs sources) (rows_left rows.entry)) (length (rows_left rows.entry)) }
{
    let mut mask = NO_FLAGS;
    for (i, row) in rows.enumerate() {
        if !is_image(row_line(row), images) {
            mask = with_flag(mask, i);
        }
    }
    mask
}
