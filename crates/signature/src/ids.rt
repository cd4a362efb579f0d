ghost use Rattle.std.specs.Prelude.{◌≡◌};
ghost use Rattle.signature.specs.Faults.{letter_of};

// The numbers of types, predicates and functions, each a position among the fields of its letter.
// They are types of their own, so that one is never taken for another.
#[derive(Clone, Copy, PartialEq, Eq, PartialOrd, Ord)]
pub struct TypeId(pub u16);

#[derive(Clone, Copy, PartialEq, Eq, PartialOrd, Ord)]
pub struct PredId(pub u16);

#[derive(Clone, Copy, PartialEq, Eq, PartialOrd, Ord)]
pub struct FuncId(pub u16);

// How many there are of each.
#[derive(Clone, Copy)]
pub struct Counts {
    pub types: usize,
    pub preds: usize,
    pub funcs: usize,
}

// The letters of the record, and no letter: where it begins.
pub const START: u8 = 0;

pub const LETTER_T: u8 = b'T';

pub const LETTER_P: u8 = b'P';

pub const LETTER_F: u8 = b'F';

// The kinds of symbols, each declared by the fields of a letter.
#[derive(Clone, Copy)]
pub enum SymbolKind {
    Type,
    Predicate,
    Function,
}

impl SymbolKind {
    // Its letter.
    pub fn letter(self) -> u8
        ensures { result ≡ letter_of self }
    {
        match self {
            SymbolKind::Type => LETTER_T,
            SymbolKind::Predicate => LETTER_P,
            SymbolKind::Function => LETTER_F,
        }
    }
}

// The limits of the record: bytes, fields of a letter, parents of a type, columns of a predicate or function.
pub const SIGNATURE_BYTES: usize = 32768;

pub const SYMBOLS: usize = 64;

pub const PARENTS: usize = 4;

pub const COLUMNS: usize = 8;

// The index of a signature: the positions of its T fields, then of its P fields, then of its F fields.
pub const TYPES_FROM: usize = 0;

pub const PREDS_FROM: usize = SYMBOLS;

pub const FUNCS_FROM: usize = 2 * SYMBOLS;

pub const INDEX: usize = 3 * SYMBOLS;

// The kinds of statements, each with a symbol: a predicate, a function, or a type.
pub const PREDICATE: u8 = 0;

pub const FUNCTION: u8 = 1;

pub const MEMBER: u8 = 2;

pub const EQUALITY: u8 = 3;

pub const TYPE_SET: u8 = 4;

pub const FUNC_DOMAIN: u8 = 5;

// What a statement is about, by its kind: a predicate, a function or a type, each by an id of its own.
#[derive(Clone, Copy)]
pub enum Relation {
    Predicate(PredId),
    Function(FuncId),
    Member(TypeId),
    Equality(TypeId),
    TypeSet(TypeId),
    FuncDomain(FuncId),
}

impl Relation {
    ghost use Rattle.std.specs.Prelude.{◌≡◌};
    ghost use Rattle.signature.specs.Relations.{kind_of, number_of};

    // The byte of its kind.
    pub fn kind(self) -> u8
        ensures { result ≡ kind_of self }
    {
        match self {
            Relation::Predicate(_) => PREDICATE,
            Relation::Function(_) => FUNCTION,
            Relation::Member(_) => MEMBER,
            Relation::Equality(_) => EQUALITY,
            Relation::TypeSet(_) => TYPE_SET,
            Relation::FuncDomain(_) => FUNC_DOMAIN,
        }
    }

    // The number of its symbol.
    pub fn number(self) -> u16
        ensures { result ≡ number_of self }
    {
        match self {
            Relation::Predicate(p) => p.0,
            Relation::Function(f) | Relation::FuncDomain(f) => f.0,
            Relation::Member(t) | Relation::Equality(t) | Relation::TypeSet(t) => t.0,
        }
    }
}
