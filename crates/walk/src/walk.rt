// The walk's step: one map.
ghost use Rattle.std.specs.Prelude.{true, List, [], ◌≡◌, ℕ, ◌+◌, ◌≤◌, ◌<◌, length, get_or, set};
ghost use Rattle.std.proofs.lemmas.List.Edits.{sets};
ghost use Rattle.definition.specs.Base.{each, given};
ghost use Rattle.definition.specs.Group as definition;
ghost use Rattle.definition.specs.Rule as rules;
ghost use Rattle.definition.specs.Names.{numbered};
ghost use Rattle.definition.specs.Walk.{nothing_taken};
ghost use Rattle.definition.specs.Limits.{structure_limit, field_limit};
ghost use Rattle.rows.specs.Kernel.{TypesOf};
ghost use Rattle.rows.specs.Morphism.{morphism_from};
ghost use Rattle.kinds.specs.Edges.{edge_by, step_with, Reached};
ghost use Rattle.naming.specs.Variables.{bare, row_of, new_in};
ghost use Rattle.rule.specs.Lookup.{kind_is, rule_at};
ghost use Rattle.rule.specs.Structures.{ByteTypes};
ghost use Rattle.rule.specs.Views.{SoundBy};
ghost use Rattle.walk.specs.Left.{Going};
ghost use Rattle.walk.specs.Linked.{Known, Meets, Ready, Links, link_met};
ghost use Rattle.walk.specs.Tables.{kind_on, row_at, with_rows};
ghost use Rattle.walk.specs.Went.{Ends, Does, Kinded, map_on, Went};

use crate::tables::{StructureMasks, Tables};
use kinds::edge::Edge;
use kinds::morphisms::{
    flatten_if_arbitrary_along, flatten_non_surj_then_along, flatten_surj_then_along,
};
use naming::assign::{assign_listed_el_vars, initial_listed_el_vars};
use naming::types::type_listed_variables;
use naming::variables::fresh_in;
use plan::plan::Plan;
use records::refusal::Refusal;
use rows::kernel::{merged_among, merged_els};
use rows::link::Link;
use rows::morphism::Morphism;
use rule::element_list::ElementList;
use rule::ids::{FIELDS, RULE_INDEX, STRUCTURES};
use rule::map::Map;
use rule::tail::{MorphismKind, Tail};
use rule::views::{Body, Structure};
use signature::lookup::Signature;
use statements::masks::Masks;

// Refused where the source has no statements yet, or the target already has statements.
fn ends(sources: &[Option<u8>; STRUCTURES], source: usize, target: usize) -> Result<(), Refusal>
    requires { (source < structure_limit) × (target < structure_limit) }
    ensures { Ends result sources.now source target }
{
    if sources[source].is_none() {
        return Err(Refusal::UnreachedSource);
    }
    if sources[target].is_some() {
        return Err(Refusal::ReachedTarget);
    }
    Ok(())
}

// The map between two structures, as the walk comes to it.
pub fn meet_map<'a>(plan: &Plan<'a>, source: usize, target: usize) -> Morphism<'a>
    requires inside { (source < length plan.now.rule.structures) × (target < length plan.now.rule.structures) }
    requires has_kind { given (kind_on plan.now.rule source target) ≡ true }
    ensures { morphism_from result ≡ map_on plan.now source target result.merged }
{
    let rule = plan.rule();
    let map = plan.map(source, target);
    let merged = merged_els(&rule.structure(target), &map);
    Morphism::new(rule, source, target, map, merged)
}

// The same of two structures by themselves, between which the rule's M fields have a map.
pub fn meet_link<'a>(
    bytes: &'a [u8],
    index: &'a [u16; RULE_INDEX],
    source: usize,
    target: usize,
) -> Link<'a>
    requires { Meets bytes.now index.now source target }
    ensures { result ≡ link_met (rule_at bytes.now) source target result.merged }
{
    let tail = Tail { bytes, index };
    let map = tail.find_map(source, target).unwrap_or(Map { pairs: &[] });
    let from = Body::new(bytes, index, source);
    let to = Body::new(bytes, index, target);
    let merged = merged_among(&to.elements(), &map);
    Link::new(from, to, map, merged)
}

// What a map asks by its kind, and the masks of what it adds; its variables are numbered from `first` on.
fn flatten_link(
    sig: &Signature<'_>,
    link: Link<'_>,
    kind: MorphismKind,
    sourcevars: &[u16; FIELDS],
    targetvars: &[u16; FIELDS],
    first: u16,
    types: &[u8],
) -> Result<Masks, Refusal>
    requires reached { Reached link sourcevars.now targetvars.now first (length types.now) }
    requires known { Known sig.now link.target }
    ensures { (table : List definition.Variable) → TypesOf table types.now
        → Does (step_with sig.now (edge_by link.entry sourcevars.now targetvars.now types.now)) table (kind_is kind) result }
{
    let edge = Edge::new(link, sourcevars, targetvars, first, types);
    match kind {
        MorphismKind::SurjThen => flatten_surj_then_along(&edge),
        MorphismKind::NonSurjThen => {
            flatten_non_surj_then_along(&edge.link, edge.targetvars, edge.first)
        }
        MorphismKind::If | MorphismKind::Noop => flatten_if_arbitrary_along(sig, &edge),
    }
}

// The map of a kind walked, from the variables of its source, with those of its target numbered from `first` on: the target gets its source,
// its masks and its variables. Handed back is the next variable to be given out. The map stands by itself. Of its rule nothing else is read:
// what is promised holds of each rule that it may be a map of. Of the rows it reads the source's and writes the target's: a caller may have any others
// in mind (`by_row`).
pub fn walk_link(
    sig: &Signature<'_>,
    link: Link<'_>,
    source: usize,
    target: usize,
    kind: MorphismKind,
    first: u16,
    tables: &mut Tables,
    types: &mut [u8],
) -> Result<u16, Refusal>
    requires known { Known sig.now link.target }
    requires ready { Ready link.source tables.old first (length types.old) source target }
    ensures went { (rule : rules.Rule) → Links (record { sig = sig.now; rule = rule }) link.entry source target kind
        → Going (record { sig = sig.now; rule = rule }) tables.old types.old first target source
        → Went result (record { sig = sig.now; rule = rule }) tables.new types.new target source }
    ensures by_row { (rule : rules.Rule) (vars : List (List ℕ)) → get_or vars source [] ≡ row_at tables.old source
        → Links (record { sig = sig.now; rule = rule }) link.entry source target kind
        → Going (record { sig = sig.now; rule = rule }) (with_rows tables.old vars) types.old first target source
        → Went result (record { sig = sig.now; rule = rule }) (with_rows tables.new (set vars target (row_at tables.new target)))
        types.new target source }
{
    let merged = link.merged();
    ends(&tables.sources, source, target)?;
    let sourcevars = &tables.vars[source];
    let elements = link.target().elements();
    let vars = assign_listed_el_vars(
        sourcevars,
        &link.source().elements(),
        &elements,
        link.map(),
        first,
    );
    // What the kind asks comes before the first write: refused, the walk ends with the tables as they were.
    let said = match flatten_link(sig, link, kind, sourcevars, &vars, first, types) {
        Ok(said) => said,
        Err(refusal) => return Err(refusal),
    };
    type_listed_variables(types, &elements, &vars, first);
    tables.sources[target] = Some(source as u8);
    tables.masks[target] = StructureMasks { said, merged };
    tables.vars[target] = vars;
    Ok(first + fresh_in(&vars, elements.count(), first))
}

// The same of a rule that was accepted, whose kinds all have their maps.
pub fn walk_map(
    plan: &Plan<'_>,
    source: usize,
    target: usize,
    kind: MorphismKind,
    first: u16,
    tables: &mut Tables,
    types: &mut [u8],
) -> Result<u16, Refusal>
    requires sound { SoundBy plan.now }
    requires kinded { Kinded plan.now source target kind }
    requires going { Going plan.now tables.old types.old first target source }
    ensures { Went result plan.now tables.new types.new target source }
{
    let m = meet_map(plan, source, target);
    walk_link(
        plan.rule().sig,
        m.link(),
        source,
        target,
        kind,
        first,
        tables,
        types,
    )
}

// The variables of elements that take nothing over, with their types.
pub fn first_listed_row(types: &mut [u8], elements: &ElementList<'_>) -> [u16; FIELDS]
    requires byte_types { ByteTypes (bare elements.now) }
    requires room { field_limit ≤ length types.old }
    ensures value { result ≡ row_of (numbered 0 (nothing_taken (bare elements.now))) }
    ensures types_after { types.new
        ≡ sets types.old 0 (each (λ (v : definition.Variable). v.type) (new_in (bare elements.now) 0 result)) }
{
    let row = initial_listed_el_vars(elements);
    type_listed_variables(types, elements, &row, 0);
    row
}

// The variables of structure 0, with their types.
pub fn first_row(types: &mut [u8], st: &Structure<'_>) -> [u16; FIELDS]
    requires { field_limit ≤ length types.old }
    ensures value { result ≡ row_of (numbered 0 (nothing_taken st.now.structure)) }
    ensures types_after { types.new
        ≡ sets types.old 0 (each (λ (v : definition.Variable). v.type) (new_in st.now.structure 0 result)) }
{
    first_listed_row(types, &st.elements())
}
