// The pass along the letters: which part of a record comes before the first field that draws 2, and where its sections stand.
ghost use Rattle.std.specs.Prelude.{◌≡◌, ℕ, ◌+◌, ◌≤◌, ◌<◌, length};
ghost use Rattle.definition.specs.Limits.{structure_limit, rule_bytes};
ghost use Rattle.rule.specs.Layout.{place_n, place_x, may_follow, PlaceOf, NextPlace, with_one, section_at, sections, rule_index, bound_at};
ghost use Rattle.rule.specs.Answers.{Passes};

use crate::ids::{
    AT_START, LETTER_A, LETTER_E, LETTER_I, LETTER_K, LETTER_M, LETTER_N, LETTER_R, LETTER_S,
    LETTER_V, LETTER_X, LETTERS, PLACE_A, PLACE_E, PLACE_I, PLACE_K, PLACE_M, PLACE_N, PLACE_R,
    PLACE_S, PLACE_V, PLACE_X, RULE_INDEX, SECTIONS, STRUCTURES,
};
use records::iter::Fields;
use signature::ids::START;

// Whether the part is the whole record, and how many structures it has; those past the first one over the limit are not counted.
#[derive(Clone, Copy)]
pub struct Passed {
    pub whole: bool,
    pub structures: usize,
}

// The place of a letter, which is a byte of the record.
#[tactic(auto, unfolding(crate::specs::Layout::place_of, definition::specs::Base::place_from))]
fn place(letter: u8) -> Option<usize>
    ensures { PlaceOf result letter }
{
    match letter {
        START => Some(AT_START),
        LETTER_N => Some(PLACE_N),
        LETTER_S => Some(PLACE_S),
        LETTER_E => Some(PLACE_E),
        LETTER_R => Some(PLACE_R),
        LETTER_A => Some(PLACE_A),
        LETTER_V => Some(PLACE_V),
        LETTER_I => Some(PLACE_I),
        LETTER_M => Some(PLACE_M),
        LETTER_K => Some(PLACE_K),
        LETTER_X => Some(PLACE_X),
        _ => None,
    }
}

// May a letter stand directly behind another? N begins the record; S stands behind N or a structure;
// any other behind an S or a letter that is no later than itself.
#[tactic(auto, unfolding(crate::specs::Layout::may_follow))]
fn may_follow(behind: usize, at: usize) -> bool
    requires { at ≤ place_x }
    ensures { result ≡ may_follow behind at }
{
    if at == PLACE_N {
        return behind == AT_START;
    }
    if behind < PLACE_N {
        return false;
    }
    if at == PLACE_S {
        return behind <= PLACE_I;
    }
    if behind < PLACE_S {
        return false;
    }
    behind <= at
}

// The place of a letter that may stand directly behind that of a place.
#[tactic(auto, unfolding(crate::specs::Layout::may_follow))]
fn next_place(behind: usize, letter: u8) -> Option<usize>
    ensures { NextPlace result behind letter }
{
    let at = place(letter)?;
    if may_follow(behind, at) {
        return Some(at);
    }
    None
}

// The structures, with the one that a letter begins.
fn counted(structures: usize, at: usize) -> usize
    requires { structures < 65536 }
    ensures { result ≡ with_one structures at }
{
    if at == PLACE_S {
        return structures + 1;
    }
    structures
}

// The section of a letter in the last of so many structures, or behind them.
#[tactic(auto, unfolding(crate::specs::Layout::section_at))]
fn section_of(structures: usize, at: usize) -> usize
    requires structures_le_structure_limit { (structures ≤ structure_limit) × (at ≤ place_x) }
    requires le_structures { place_n < at → 1 ≤ structures }
    ensures { result ≡ section_at structures at }
{
    if at <= PLACE_N {
        return 0;
    }
    if at < PLACE_M {
        return LETTERS * structures + at - PLACE_I;
    }
    LETTERS * STRUCTURES + at - PLACE_I
}

// The sections behind one, up to another, start at a position.
fn fill(index: &mut [u16; RULE_INDEX], section: usize, to: usize, at: usize)
    requires section_le_to { (section ≤ to) × (to ≤ sections) × (at < 65536) }
    requires index_len { length index.old ≡ rule_index }
    ensures by_index { (t : ℕ) → bound_at index.new to at t ≡ bound_at index.old section at t }
    ensures index_len_2 { length index.new ≡ rule_index }
{
    for i in section..to {
        index[i + 1] = at as u16;
    }
}

// The pass ends at a position, where the sections behind the last one start too.
fn ended(
    index: &mut [u16; RULE_INDEX],
    section: usize,
    at: usize,
    whole: bool,
    structures: usize,
) -> Passed
    requires section_le_sections { (section ≤ sections) × (at < 65536) }
    requires index_len { length index.old ≡ rule_index }
    ensures whole_value { (result.whole ≡ whole) × (result.structures ≡ structures) }
    ensures by_index { (t : ℕ) → bound_at index.new sections at t ≡ bound_at index.old section at t }
    ensures index_len_2 { length index.new ≡ rule_index }
{
    fill(index, section, SECTIONS, at);
    Passed { whole, structures }
}

// Everything from the first structure over the limit on is left out: that S has a fault, and nothing behind it is reached.
pub fn pass(s: &[u8], index: &mut [u16; RULE_INDEX]) -> Passed
    requires s_len_bound { length s.now ≤ rule_bytes }
    requires index_len { length index.old ≡ rule_index }
    ensures passes { Passes s.now index.new result.whole result.structures }
    ensures index_len_2 { length index.new ≡ rule_index }
{
    index[0] = 0;
    let mut fields = Fields::new(s);
    let mut left = s;
    let mut last = START;
    let mut behind = AT_START;
    let mut structures: usize = 0;
    let mut section: usize = 0;
    while let Some(f) = fields.next() {
        let at = s.len() - left.len();
        left = fields.rest();
        // A letter that may be repeated, so not N and not S, stays in its section.
        if f.letter == last && PLACE_S < behind {
            continue;
        }
        let Some(p) = next_place(behind, f.letter) else {
            return ended(index, section, at, false, structures);
        };
        let n = counted(structures, p);
        if STRUCTURES < n {
            return ended(index, section, at, false, n);
        }
        let to = section_of(n, p);
        fill(index, section, to, at);
        structures = n;
        section = to;
        last = f.letter;
        behind = p;
    }
    let at = s.len() - left.len();
    let whole = left.is_empty() && PLACE_S <= behind;
    ended(index, section, at, whole, structures)
}
