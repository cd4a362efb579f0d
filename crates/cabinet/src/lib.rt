// What a C host calls. A slice passes as a pointer and a length; a refusal's number, or 0. host/nagzelud.h has the promises.
#![tactic(auto)]

ghost use Rattle.std.specs.Prelude.{◌≡◌, length};
ghost use Rattle.definition.specs.Scope.{scope_of, owners_of};
ghost use Rattle.definition.specs.Flatten.{flatten_of, laid_over};
ghost use Rattle.records.specs.Refusals.{fault_of};
ghost use Rattle.reading.specs.Verdicts.{refusal_of, rule_read, group_read};
ghost use Rattle.cabinet.specs.Codes.{code_of, unowned, scope_told, OwnersHeld, flatten_told, GroupDemanded};

use records::refusal::Refusal;

// What a check found, as a number.
fn code(found: Result<(), Refusal>) -> u32
    ensures { result ≡ code_of (fault_of found) }
{
    match found {
        Ok(()) => 0,
        Err(refusal) => u32::from(refusal.number()),
    }
}

// Are the signature and the rule sound?
#[unsafe(no_mangle)]
pub extern "C" fn nagzelud_check_rule(sig: &[u8], rule: &[u8]) -> u32
    ensures { result ≡ code_of (refusal_of (rule_read sig.now rule.now)) }
{
    code(reading::check_rule(sig, rule))
}

// Are the signature and the group sound?
#[unsafe(no_mangle)]
pub extern "C" fn nagzelud_check_group(sig: &[u8], group: &[u8]) -> u32
    ensures { result ≡ code_of (refusal_of (group_read sig.now group.now)) }
{
    code(reading::check_group(sig, group))
}

// Kinds of scope.
const GLOBAL: u32 = 0;

const MODEL: u32 = 1;

// Which model owns a rule. `refused` is 0 or the refusal's number; the owners are `count` variables of two bytes each, from `offset`
// on in the group. What does not apply is 0.
#[repr(C)]
#[derive(Clone, Copy)]
pub struct ScopeAnswer {
    pub refused: u32,
    pub kind: u32,
    pub model: usize,
    pub offset: usize,
    pub count: usize,
}

// Refused, or with 0 global.
fn nothing_owned(refused: u32) -> ScopeAnswer
    ensures { result ≡ unowned refused }
{
    ScopeAnswer {
        refused,
        kind: GLOBAL,
        model: 0,
        offset: 0,
        count: 0,
    }
}

// The scope of the rule at a position of a group.
#[unsafe(no_mangle)]
pub extern "C" fn nagzelud_scope(sig: &[u8], group: &[u8], position: usize) -> ScopeAnswer
    ensures value { result ≡ scope_told group.now position (scope_of sig.now group.now position) }
    ensures owners_held { OwnersHeld group.now result (owners_of sig.now group.now position) }
{
    match scope::infer::scope(sig, group, position) {
        Ok(None) => nothing_owned(0),
        Ok(Some(own)) => ScopeAnswer {
            refused: 0,
            kind: MODEL,
            model: usize::from(own.model.0),
            offset: own.start,
            count: own.count,
        },
        Err(refusal) => nothing_owned(u32::from(refusal.number())),
    }
}

// What flatten did. `refused` is 0 or the refusal's number; the group is the first `written` bytes of the buffer, none where refused.
#[repr(C)]
#[derive(Clone, Copy)]
pub struct FlattenAnswer {
    pub refused: u32,
    pub written: usize,
}

// A rule flattened into a lent buffer.
#[unsafe(no_mangle)]
pub extern "C" fn nagzelud_flatten(sig: &[u8], rule: &[u8], out: &mut [u8]) -> FlattenAnswer
    ensures value { result ≡ flatten_told (flatten_of sig.now rule.now (length out.old)) }
    ensures out_after { out.new ≡ laid_over (flatten_of sig.now rule.now (length out.old)) out.old }
    ensures group_demanded { GroupDemanded sig.now rule.now (length out.old) result out.new }
{
    match flatten::entry::flatten(sig, rule, out) {
        Ok(written) => FlattenAnswer {
            refused: 0,
            written,
        },
        Err(refusal) => FlattenAnswer {
            refused: u32::from(refusal.number()),
            written: 0,
        },
    }
}
