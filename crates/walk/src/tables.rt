// The tables of the walk: for each structure the source that it was reached from, its masks, and the variables of its elements.
ghost use Rattle.std.specs.Prelude.{◌≡◌};
ghost use Rattle.walk.specs.Tables.{all_masks, no_tables};

use flags::{ALL_FLAGS, Mask, NO_FLAGS};
use rule::ids::{FIELDS, STRUCTURES};
use statements::masks::Masks;

// The masks of a structure: what it adds to its source's statements, and which of its elements several keys of the map that reached it
// were sent to.
#[derive(Clone, Copy)]
pub struct StructureMasks {
    pub said: Masks,
    pub merged: Mask,
}

// The masks of a structure that no map has reached yet.
pub const NO_MASKS: StructureMasks = StructureMasks {
    said: Masks {
        preds: NO_FLAGS,
        funcs: NO_FLAGS,
        members: NO_FLAGS,
        free: NO_FLAGS,
    },
    merged: NO_FLAGS,
};

// The masks of structure 0: its premise has all that it says, every row and every TypeSet.
pub fn initial_matching_stmts() -> StructureMasks
    ensures { result ≡ all_masks }
{
    let said = Masks {
        preds: ALL_FLAGS,
        funcs: ALL_FLAGS,
        members: ALL_FLAGS,
        free: ALL_FLAGS,
    };
    StructureMasks {
        said,
        merged: NO_FLAGS,
    }
}

// A place for each structure: the source that it was reached from, none where no map has reached it yet; its masks; and the variables of
// its elements, a place for each.
#[derive(Drop)]
pub struct Tables {
    pub sources: [Option<u8>; STRUCTURES],
    pub masks: [StructureMasks; STRUCTURES],
    pub vars: [[u16; FIELDS]; STRUCTURES],
}

// The tables before any structure is reached. What stands in the row of one that isn't is never read.
pub fn no_tables() -> Tables
    ensures { result ≡ no_tables }
{
    Tables {
        sources: [None; STRUCTURES],
        masks: [NO_MASKS; STRUCTURES],
        vars: [[0; FIELDS]; STRUCTURES],
    }
}
