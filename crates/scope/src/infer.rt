// Scope and owners of a rule at a position of a group, for any bytes.
ghost use Rattle.std.specs.Prelude.{◌≡◌};
ghost use Rattle.definition.specs.Scope.{scope_of, owners_of};
ghost use Rattle.scope.specs.Answers.{scope_answer, OwnersStand};

use crate::answers::Owned;
use crate::rules::rule_scope;
use group::ids::GROUP_INDEX;
use group::reader::read_group;
use group::rule::FlatRule;
use records::refusal::Refusal;
use signature::ids::INDEX;
use signature::reader::read_signature;

// The scope of the rule at a position, after all checks of signature and group: its model and owners, or none where it is global.
pub fn scope(sig: &[u8], group: &[u8], position: usize) -> Result<Option<Owned>, Refusal>
    ensures result_value { scope_answer group.now result ≡ scope_of sig.now group.now position }
    ensures owners_stand { OwnersStand group.now position result }
{
    let mut symbols = [0u16; INDEX];
    let signature = read_signature(sig, &mut symbols)?;
    let mut index = [0u16; GROUP_INDEX];
    // Not by `?`: wrong programs of this crate answer a group that isn't read otherwise, and keep the code's shape.
    let found = match read_group(&signature, group, &mut index) {
        Ok(found) => found,
        Err(refusal) => return Err(refusal),
    };
    if found.rules() <= position {
        return Err(Refusal::NoSuchRule);
    }
    rule_scope(FlatRule::of(&found, position))
}

// The owners: the part of the group's bytes that holds the first conclusion's leading variables. It is empty where the rule
// belongs to no model or is refused.
#[tactic(auto, unfolding(definition::specs::Scope::owners_of, definition::specs::Scope::owners_part))]
pub fn owners<'a>(sig: &[u8], group: &'a [u8], position: usize) -> &'a [u8]
    ensures { result.now ≡ owners_of sig.now group.now position }
{
    let Ok(Some(own)) = scope(sig, group, position) else {
        return &group[0..0];
    };
    &group[own.start..own.start + 2 * own.count]
}
