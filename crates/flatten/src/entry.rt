// The entry: a signature and a rule as bytes, flattened into a lent buffer.
ghost use Rattle.std.specs.Prelude.{◌≡◌, length};
ghost use Rattle.definition.specs.Flatten.{group_left, fitted, flatten_of, laid_over};
ghost use Rattle.definition.specs.Writer.{group_bytes_of};
ghost use Rattle.flatten.specs.Answers.{Untyped, Writes, outcome_in, answer_of, Demanded, walk_outcome, rule_outcome};

use naming::variables::VARIABLES;
use plan::plan::Plan;
use plan::table::NO_KINDS;
use records::refusal::Refusal;
use rule::ids::{FIELDS, RULE_INDEX};
use rule::reader::read_rule;
use rule::views::Rule;
use signature::ids::INDEX;
use signature::reader::read_signature;
use walk::tables::{initial_matching_stmts, no_tables};
use walk::walk::{first_row, walk_map};
use walk::walked::Walked;
use writer::output::put_group;

// At most so many bytes of a buffer are used.
pub const ANSWER: usize = 65535;

// Most rules have few structures, and so few variables: for them a small table of types is cleared, not one for the largest rule.
const FEW_STRUCTURES: usize = 4;

const FEW_VARIABLES: usize = FIELDS * FEW_STRUCTURES;

// The group, measured first, then written where it fits.
fn write_group(out: &mut [u8], w: &Walked<'_>) -> Result<usize, Refusal>
    ensures { Writes result out.old out.new (fitted (length out.old) (group_bytes_of (group_left w.now.rule w.now.state))) }
{
    let room = out.len().min(ANSWER);
    // A refusal leaves the buffer as it was, so it comes before the first byte: lent an empty slice, `put_group` only counts.
    if room < put_group(&mut [], w) {
        return Err(Refusal::NoRoom);
    }
    Ok(put_group(out, w))
}

// The walk over all pairs that have a kind, by target, then source; then the group of what it leaves. The table of the variables' types has a
// place for each element.
fn flatten_morphisms(plan: &Plan<'_>, types: &mut [u8], out: &mut [u8]) -> Result<usize, Refusal>
    requires { Untyped types.old (length plan.now.rule.structures) }
    ensures { Writes result out.old out.new (walk_outcome plan.now (length out.old)) }
{
    let rule = plan.rule();
    let structures = rule.structures();
    let first = rule.structure(0);
    let mut tables = no_tables();
    tables.sources[0] = Some(0);
    tables.masks[0] = initial_matching_stmts();
    tables.vars[0] = first_row(types, &first);
    let mut next = first.element_count() as u16;
    for target in 0..structures {
        for source in 0..structures {
            if let Some(kind) = plan.kind(source, target) {
                next = walk_map(plan, source, target, kind, next, &mut tables, types)?;
            }
        }
    }
    let w = Walked {
        plan,
        tables: &tables,
        types,
    };
    write_group(out, &w)
}

// An accepted rule: 21 and 22, then the walk.
fn flatten_rule(rule: &Rule<'_>, types: &mut [u8], out: &mut [u8]) -> Result<usize, Refusal>
    requires { Untyped types.old (length rule.now.rule.structures) }
    ensures { Writes result out.old out.new (rule_outcome rule.now (length out.old)) }
{
    let mut kinds = NO_KINDS;
    let plan = Plan::new(rule, &mut kinds)?;
    flatten_morphisms(&plan, types, out)
}

// Flatten: the group at the front of the buffer, whose rest is as it was, and its length; or a refusal, and the buffer as it was.
pub fn flatten(sig: &[u8], rule: &[u8], out: &mut [u8]) -> Result<usize, Refusal>
    ensures value { outcome_in result ≡ answer_of (flatten_of sig.now rule.now (length out.old)) }
    ensures out_after { out.new ≡ laid_over (flatten_of sig.now rule.now (length out.old)) out.old }
    ensures demanded { Demanded result sig.now rule.now out.new }
{
    let mut symbols = [0u16; INDEX];
    let signature = read_signature(sig, &mut symbols)?;
    let mut index = [0u16; RULE_INDEX];
    let accepted = read_rule(&signature, rule, &mut index)?;
    if accepted.structures() <= FEW_STRUCTURES {
        let mut types = [0u8; FEW_VARIABLES];
        return flatten_rule(&accepted, &mut types, out);
    }
    let mut types = [0u8; VARIABLES];
    flatten_rule(&accepted, &mut types, out)
}
