// The four kinds of maps, from a reached structure to one that is not: refusals 25 to 30, else what the map adds.
ghost use Rattle.std.specs.Prelude.{List, ℕ, [], ◌∷◌, ◌≡◌, ◌<◌, length, get_or};
ghost use Rattle.definition.specs.Group.{Variable};
ghost use Rattle.definition.specs.Kinds.{new_elements};
ghost use Rattle.definition.specs.Names.{numbers_of};
ghost use Rattle.definition.specs.Rule.{If, Noop};
ghost use Rattle.definition.specs.Signature as definition;
ghost use Rattle.rule.specs.Views.{WellFormed};
ghost use Rattle.rows.specs.Arguments.{AllListed};
ghost use Rattle.rows.specs.Kernel.{TypesOf};
ghost use Rattle.statements.specs.Structures.{side_of};
ghost use Rattle.kinds.specs.Edges.{edge_by, step_with, Landed};
ghost use Rattle.kinds.specs.Steps.{MasksFor, IfDoes, SurjDoes, NonSurjDoes};

use crate::added::added_link_rows;
use crate::edge::Edge;
use crate::elements::{New, new_among};
use crate::step::Step;
use crate::yielding::{all_flagged_among, arguments, yielding_row};
use flags::{NO_FLAGS, PLACES, one_flag};
use naming::variables::images_in;
use records::refusal::Refusal;
use rows::arguments::constrained_among;
use rows::link::Link;
use rule::ids::FIELDS;
use signature::lookup::Signature;
use statements::masks::Masks;

// Masks of a target that adds nothing.
const NO_MASKS: Masks = Masks {
    preds: NO_FLAGS,
    funcs: NO_FLAGS,
    members: NO_FLAGS,
    free: NO_FLAGS,
};

// Refused where variables of a kernel pair differ in type, or an element of a row has no image; else the flags of the new rows, with the
// members that have no mark.
fn new_masks(edge: &Edge<'_>, marks: &[bool; PLACES]) -> Result<Masks, Refusal>
    ensures value { (sig : definition.Signature) (table : List Variable) → TypesOf table edge.now.types
        → MasksFor (step_with sig edge.now) table marks.now result }
    ensures formed { WellFormed edge.now.source.structure }
{
    if edge.clashes() {
        return Err(Refusal::KernelTypesDiffer);
    }
    added_link_rows(edge.link(), marks)
}

// If and Noop: refused as `new_masks` is, else the new rows but for members whose element is constrained, and the elements that are neither
// images nor constrained, by a signature that has the symbols of the target's rows.
pub fn flatten_if_arbitrary_along(sig: &Signature<'_>, edge: &Edge<'_>) -> Result<Masks, Refusal>
    requires preds { AllListed sig.now edge.now.target.structure.pred_rows }
    requires funcs { AllListed sig.now edge.now.target.structure.func_rows }
    ensures { (table : List Variable) → TypesOf table edge.now.types
        → IfDoes (step_with sig.now edge.now) table If result × IfDoes (step_with sig.now edge.now) table Noop result }
{
    let target = edge.target();
    let marks = constrained_among(
        sig,
        &target.elements(),
        target.pred_rows(),
        target.func_rows(),
    );
    let masks = new_masks(edge, &marks)?;
    let free = edge.free_els(&marks);
    Ok(Masks { free, ..masks })
}

// The same of a step.
pub fn flatten_if_arbitrary(step: &Step<'_>) -> Result<Masks, Refusal>
    ensures { (table : List Variable) → TypesOf table step.now.types
        → IfDoes step.now table If result × IfDoes step.now table Noop result }
{
    flatten_if_arbitrary_along(step.target().sig, &step.edge())
}

// SurjThen: refused as `new_masks` is, or at a new element; else the new rows, whatever the signature.
pub fn flatten_surj_then_along(edge: &Edge<'_>) -> Result<Masks, Refusal>
    ensures { (sig : definition.Signature) (table : List Variable) → TypesOf table edge.now.types
        → SurjDoes (step_with sig edge.now) table result }
{
    let masks = new_masks(edge, &[false; PLACES])?;
    match edge.new_elements() {
        New::Nothing => Ok(masks),
        New::One(_) | New::More => Err(Refusal::NewElement),
    }
}

// The same of a step.
pub fn flatten_surj_then(step: &Step<'_>) -> Result<Masks, Refusal>
    ensures { (table : List Variable) → TypesOf table step.now.types → SurjDoes step.now table result }
{
    flatten_surj_then_along(&step.edge())
}

// The row that yields the one new element, which stands at a place. Refused where no row does, or where an argument of that row is no image.
fn yielding_step(
    link: &Link<'_>,
    targetvars: &[u16; FIELDS],
    first: u16,
    i: usize,
) -> Result<Masks, Refusal>
    requires inside { i < length link.now.target.elements }
    requires landed { Landed link.now targetvars.now first }
    ensures { (sig : definition.Signature) (table : List Variable) (sourcevars types : List ℕ)
        → new_elements (side_of link.now.target targetvars.now) link.now.pairs ≡ get_or (numbers_of link.now.target) i 0 ∷ []
        → NonSurjDoes (step_with sig (edge_by link.now sourcevars targetvars.now types)) table result }
{
    // Looking into the structure tells the proof that its rows are of its own elements.
    let target = link.target();
    let _ = &target.number;
    let elements = target.elements();
    let e = elements.element_number(i);
    let y = yielding_row(target.func_rows(), e).ok_or(Refusal::NotYielded)?;
    let images = images_in(targetvars, elements.count(), first);
    if !all_flagged_among(&elements, arguments(y.row), &images) {
        return Err(Refusal::UnmappedArgument);
    }
    Ok(Masks {
        funcs: one_flag(y.place),
        ..NO_MASKS
    })
}

// NonSurjThen: refused at a second new element, else the row that yields the new element, if there is one. It asks for the target's variables
// alone, and the signature doesn't matter.
pub fn flatten_non_surj_then_along(
    link: &Link<'_>,
    targetvars: &[u16; FIELDS],
    first: u16,
) -> Result<Masks, Refusal>
    requires { Landed link.now targetvars.now first }
    ensures { (sig : definition.Signature) (table : List Variable) (sourcevars types : List ℕ)
        → NonSurjDoes (step_with sig (edge_by link.now sourcevars targetvars.now types)) table result }
{
    match new_among(&link.target().elements(), targetvars, first) {
        New::Nothing => Ok(NO_MASKS),
        New::One(i) => yielding_step(link, targetvars, first, i),
        New::More => Err(Refusal::NewElements),
    }
}

// The same of a step.
pub fn flatten_non_surj_then(step: &Step<'_>) -> Result<Masks, Refusal>
    ensures { (table : List Variable) → NonSurjDoes step.now table result }
{
    let edge = step.edge();
    flatten_non_surj_then_along(&edge.link, edge.targetvars, edge.first)
}
