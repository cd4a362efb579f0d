// Sets of places, a flag for each: a mask. A table of them takes an eighth of what a table of bools would. What holds the flags is known
// here alone.
#![tactic(auto)]

ghost use Rattle.std.specs.Prelude.{◌≡◌, ◌≤◌, ◌<◌};
ghost use Rattle.flags.specs.Flags.{places, flag_at, none_set, with_flag, only_flag, Above, PackedLess};

// The places of a mask.
pub const PLACES: usize = 64;

// One word, a binary digit for each place.
#[derive(Clone, Copy)]
pub struct Mask {
    word: u64,
}

// No flag, and every flag: constants, so that no call stands where they are used.
pub const NO_FLAGS: Mask = Mask { word: 0 };

pub const ALL_FLAGS: Mask = Mask {
    word: 18446744073709551615,
};

// Is no flag set?
pub fn none_set(mask: Mask) -> bool
    ensures { result ≡ none_set mask }
{
    mask.word == 0
}

// Is the flag of a place set?
pub fn flag(mask: Mask, i: usize) -> bool
    requires { i < places }
    ensures { result ≡ flag_at mask i }
{
    ((mask.word >> i) & 1) == 1
}

// The flags with one more, above all that are set.
pub fn with_flag(mask: Mask, i: usize) -> Mask
    requires { (i < places) × Above mask i }
    ensures { result ≡ with_flag mask i }
{
    let word = mask.word + (1 << i);
    Mask { word }
}

// The flag of one place.
pub fn one_flag(i: usize) -> Mask
    requires { i < places }
    ensures { result ≡ only_flag i }
{
    with_flag(NO_FLAGS, i)
}

// The flags of the first places that one row has and another has not.
pub fn packed_less(row: [bool; PLACES], others: [bool; PLACES], count: usize) -> Mask
    requires { count ≤ places }
    ensures { PackedLess result row others count }
{
    let mut mask = NO_FLAGS;
    for i in 0..count {
        if row[i] && !others[i] {
            mask = with_flag(mask, i);
        }
    }
    mask
}
