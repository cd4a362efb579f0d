// Why something is refused, each reason with its number. docs/FORMAT.md has what each means for a signature, a rule, a group, flatten
// and scope.
ghost use Rattle.std.specs.Prelude.{◌≡◌};
ghost use Rattle.records.specs.Refusals.{number};

#[derive(Clone, Copy, Debug, PartialEq, Eq)]
pub enum Refusal {
    // Of a record.
    TooLong = 1,
    BadFields = 2,
    BadLength = 3,
    TooMany = 4,
    Undeclared = 5,
    NotAscending = 6,
    BadArity = 7,
    BadName = 8,
    // Of flatten.
    UnmappedAuxiliary = 21,
    UnmappedKind = 22,
    UnreachedSource = 23,
    ReachedTarget = 24,
    KernelTypesDiffer = 25,
    UnmappedElement = 26,
    NewElement = 27,
    NewElements = 28,
    NotYielded = 29,
    UnmappedArgument = 30,
    NoRoom = 31,
    // Of scope.
    NoSuchRule = 41,
    PremiseEquality = 42,
    TooFewVariables = 43,
}

impl Refusal {
    // Its number.
    pub fn number(self) -> u8
        ensures { result ≡ number self }
    {
        self as u8
    }
}
