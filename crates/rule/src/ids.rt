// The numbers, letters and limits of a rule record, and the layout of its index.
// An element's number is a type of its own, so that it is never taken for another.
#[derive(Clone, Copy, PartialEq, Eq, PartialOrd, Ord)]
pub struct ElId(pub u16);

// The letters of the record, in their order.
pub const LETTER_N: u8 = b'N';

pub const LETTER_S: u8 = b'S';

pub const LETTER_E: u8 = b'E';

pub const LETTER_R: u8 = b'R';

pub const LETTER_A: u8 = b'A';

pub const LETTER_V: u8 = b'V';

pub const LETTER_I: u8 = b'I';

pub const LETTER_M: u8 = b'M';

pub const LETTER_K: u8 = b'K';

pub const LETTER_X: u8 = b'X';

// Their places in that order; the record begins at the place before N.
pub const AT_START: usize = 0;

pub const PLACE_N: usize = 1;

pub const PLACE_S: usize = 2;

pub const PLACE_E: usize = 3;

pub const PLACE_R: usize = 4;

pub const PLACE_A: usize = 5;

pub const PLACE_V: usize = 6;

pub const PLACE_I: usize = 7;

pub const PLACE_M: usize = 8;

pub const PLACE_K: usize = 9;

pub const PLACE_X: usize = 10;

// The limits of the record: bytes, structures, fields of a letter in a structure, fields of M, K and X, bytes of a name.
pub const RULE_BYTES: usize = 32768;

pub const STRUCTURES: usize = 32;

pub const FIELDS: usize = 64;

pub const MAPS: usize = 64;

pub const NAME_BYTES: usize = 24;

// The fields of a letter stand together, so that the record is a row of sections: N; S, E, R, A, V, I of each structure; M, K, X.
// The index begins with where each section starts. It ends where the next one starts, so behind X stands the end.
pub const SECTION_N: usize = 0;

pub const LETTERS: usize = 6;

// Those of the first structure; each later one has its own so many letters further on.
pub const SECTION_S: usize = PLACE_S - PLACE_N;

pub const SECTION_E: usize = PLACE_E - PLACE_N;

pub const SECTION_R: usize = PLACE_R - PLACE_N;

pub const SECTION_A: usize = PLACE_A - PLACE_N;

pub const SECTION_V: usize = PLACE_V - PLACE_N;

pub const SECTION_I: usize = PLACE_I - PLACE_N;

pub const BEHIND_I: usize = SECTION_I + 1;

// Those behind all structures.
pub const SECTION_M: usize = LETTERS * STRUCTURES + PLACE_M - PLACE_I;

pub const SECTION_K: usize = LETTERS * STRUCTURES + PLACE_K - PLACE_I;

pub const SECTION_X: usize = LETTERS * STRUCTURES + PLACE_X - PLACE_I;

pub const SECTIONS: usize = SECTION_X + 1;

// Then the positions of the E fields, so many for each structure, and for each structure how many there are.
pub const ELEMENTS_FROM: usize = SECTIONS + 1;

pub const COUNTS_FROM: usize = ELEMENTS_FROM + FIELDS * STRUCTURES;

pub const RULE_INDEX: usize = COUNTS_FROM + STRUCTURES;
