// The numbers of a group: its variables and rules, its letters, its limits, its index.
ghost use Rattle.std.specs.Prelude.{◌≡◌};
ghost use Rattle.group.specs.Sections.{letter_of};

// The number of a variable: its position among the W fields. A type of its own, as those of the signature are.
#[derive(Clone, Copy, PartialEq, Eq, PartialOrd, Ord)]
pub struct VarId(pub u16);

// How many variables and rules there are.
#[derive(Clone, Copy)]
pub struct GroupCounts {
    pub variables: usize,
    pub rules: usize,
}

// The two sides of a rule, each a section of its statements.
#[derive(Clone, Copy)]
pub enum Side {
    Premise,
    Conclusion,
}

impl Side {
    // The letter of its fields.
    pub fn letter(self) -> u8
        ensures { result ≡ letter_of self }
    {
        match self {
            Side::Premise => LETTER_B,
            Side::Conclusion => LETTER_H,
        }
    }
}

// The letters of the record.
pub const LETTER_G: u8 = b'G';

pub const LETTER_W: u8 = b'W';

pub const LETTER_U: u8 = b'U';

pub const LETTER_B: u8 = b'B';

pub const LETTER_H: u8 = b'H';

// How many bytes of a field stand before its content: the letter, two of the length.
pub const FIELD_HEAD: usize = 3;

// How many bytes of a W field's content stand before the name, two of the type, and how many of the field.
pub const NAME_AT: usize = 2;

pub const BEFORE_NAME: usize = FIELD_HEAD + NAME_AT;

// How many bytes of a B or H field's content stand before the variables, the kind and two of the symbol, and how many of the field.
pub const VARS_AT: usize = 3;

pub const BEFORE_VARS: usize = FIELD_HEAD + VARS_AT;

// The limits of the record: bytes, W fields, U fields, bytes of a name.
pub const GROUP_BYTES: usize = 65535;

pub const VARIABLES: usize = 2048;

pub const RULES: usize = 64;

pub const NAME_BYTES: usize = 32;

// The index of a group: the positions of its W fields; of its U fields, and behind the last of them the end of the fields,
// so that each rule ends where the next entry says; and where each rule's H fields start. The last is found on the way when
// the rule is checked, and scope asks for the conclusions first, so it is kept and not searched for again.
pub const VARIABLES_FROM: usize = 0;

pub const RULES_FROM: usize = VARIABLES;

pub const CONCLUSIONS_FROM: usize = VARIABLES + RULES + 1;

pub const GROUP_INDEX: usize = VARIABLES + RULES + 1 + RULES;
