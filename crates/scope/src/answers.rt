// What scope answers, and what a statement settles on the way to it.
ghost use Rattle.std.specs.Prelude.{◌≡◌, ◌*◌, ◌<◌, length};
ghost use Rattle.definition.specs.Records.{numbers};
ghost use Rattle.definition.specs.Scope.{owner_count};
ghost use Rattle.group.specs.Lookups.{Named};

use group::lookup::VariableTable;
use signature::ids::TypeId;
use signature::lookup::Signature;

// A model and a rule's owners: `count` variables of two bytes each, from `start` on in the group. The first conclusion has them, and
// the other statements are compared with it.
#[derive(Clone, Copy)]
pub struct Owned {
    pub model: TypeId,
    pub start: usize,
    pub count: usize,
}

// The same while it is sought: the signature and the group's variables, the model that the first conclusion has, and the owners' numbers,
// two bytes each, as many as the model asks for.
#[derive(Clone, Copy)]
pub struct Owners<'a> {
    pub signature: &'a Signature<'a>,
    pub table: &'a VariableTable<'a>,
    pub model: TypeId,
    pub variables: &'a [u8],
    pub ghost typed: { model.0 < length signature.now.types },
    pub ghost counted: { length variables.now ≡ 2 * owner_count signature.now model.0 },
    pub ghost named: { Named table.now.bytes.now (numbers variables.now) },
}

// A statement leaves the scope open, or settles that the rule belongs to no model.
#[derive(Clone, Copy, Debug, PartialEq, Eq)]
pub enum Verdict {
    Open,
    Global,
}
