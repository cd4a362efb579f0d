// The rows and members of a map's target that are no images of the source's: a flag for each, or 26 where a row of the source has an
// element without an image.
ghost use Rattle.std.specs.Prelude.{ℕ};
ghost use Rattle.rule.specs.Map.{pairs_from};
ghost use Rattle.rule.specs.Row.{rows_left};
ghost use Rattle.rule.specs.Rows.{Alike};
ghost use Rattle.rows.specs.Morphism.{morphism_from};
ghost use Rattle.rows.specs.Table.{Short};
ghost use Rattle.kinds.specs.Added.{NewRows, NewMembers, AddsRows};

use flags::{Mask, NO_FLAGS, PLACES, packed_less};
use records::refusal::Refusal;
use rows::link::Link;
use rows::members::{has_members_among, mapped_members_among, new_members_among};
use rows::morphism::Morphism;
use rows::table::{mapped_rel_apps, new_rows, no_images};
use rule::map::Map;
use rule::row::Rows;
use statements::masks::Masks;

// Which R or A rows of the target are new. Small rules often have none on either side: then no table is cleared for them.
fn new_section(old: Rows<'_>, new: Rows<'_>, m: &Map<'_>) -> Result<Mask, Refusal>
    requires short { Short (rows_left old) }
    requires short_2 { Short (rows_left new) }
    ensures { (kind : ℕ) (columns : ℕ → ℕ) → Alike kind columns (rows_left old.entry) → Alike kind columns (rows_left new.entry)
        → NewRows result (pairs_from m.now) (rows_left old.entry) (rows_left new.entry) }
{
    if old.is_empty() && new.is_empty() {
        return Ok(NO_FLAGS);
    }
    let mut images = no_images();
    mapped_rel_apps(old, m, &mut images)?;
    Ok(new_rows(new, &images))
}

// Which elements of the target have a new member row and no mark. Here too no table is cleared where there are none on either side.
fn new_unmarked(link: &Link<'_>, marks: &[bool; PLACES]) -> Result<Mask, Refusal>
    ensures { NewMembers result link.now.source link.now.target link.now.pairs marks.now }
{
    let source = link.source().elements();
    let target = link.target().elements();
    if !has_members_among(&source) && !has_members_among(&target) {
        return Ok(NO_FLAGS);
    }
    let mut images = no_images();
    mapped_members_among(&source, link.map(), &mut images)?;
    let new = new_members_among(&target, &images);
    Ok(packed_less(new, *marks, target.count()))
}

// 26, else the flags of the new rows, with the members that have no mark.
pub fn added_link_rows(link: &Link<'_>, marks: &[bool; PLACES]) -> Result<Masks, Refusal>
    ensures { AddsRows result link.now.source link.now.target link.now.pairs marks.now }
{
    // Looking into the structures tells the proof that their rows are few and short.
    let source = link.source();
    let _ = &source.number;
    let target = link.target();
    let _ = &target.number;
    Ok(Masks {
        preds: new_section(source.pred_rows(), target.pred_rows(), link.map())?,
        funcs: new_section(source.func_rows(), target.func_rows(), link.map())?,
        members: new_unmarked(link, marks)?,
        free: NO_FLAGS,
    })
}

// The same of a map of an accepted rule.
pub fn added_rows(m: &Morphism<'_>, marks: &[bool; PLACES]) -> Result<Masks, Refusal>
    ensures { AddsRows result (morphism_from m.now).source (morphism_from m.now).target (morphism_from m.now).pairs marks.now }
{
    added_link_rows(&m.link(), marks)
}
