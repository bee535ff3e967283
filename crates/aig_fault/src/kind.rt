//! What can be wrong with an input.
ghost use Rattle.std.specs.Prelude.{◌≡◌};
ghost use Rattle.aig_fault.specs.Words.{kind_number, kind_of_number};

/// What is wrong with an input. Each has the number that `include/aigtools.h` gives it.
#[derive(Clone, Copy, Debug, PartialEq, Eq)]
pub enum Kind {
    /// The first word is not that of an AIGER file.
    NotAiger = 1,
    /// The header has not five to nine numbers, or its counts do not fit below its largest index.
    BadHeader = 2,
    /// The largest index or a count is above the limit, or the size of a justice property, or the
    /// sum of the sizes up to it.
    TooLarge = 3,
    /// The line does not have the numbers that its section asks for, or has other bytes.
    BadLine = 4,
    /// An odd number, or one below 2, where a definition stands.
    NotVariable = 5,
    /// A literal above the largest index.
    LiteralRange = 6,
    /// The reset of a latch is neither 0 nor 1 nor the latch's own literal.
    BadReset = 7,
    /// The text ends where a line or a byte of a gate should follow.
    Truncated = 8,
    /// A delta of a binary gate that has no end within five bytes, or a value of 2^32 or more; a
    /// first delta that is 0; or a delta above what it is taken from.
    BadDelta = 9,
    /// A line of the tail that is neither a symbol line nor the line `c`.
    BadSymbol = 10,
    /// A symbol's position is not below the count of its kind.
    SymbolRange = 11,
    /// What a symbol names has a name already.
    SymbolTwice = 12,
    /// The variable is defined by a second input, latch or gate.
    Redefined = 13,
    /// The literal is used, and nothing defines its variable.
    Undefined = 14,
    /// The gate with this literal depends on a cycle of gates.
    Cyclic = 15,
    /// The gates are not in binary order, as undoing a map or a step wants them.
    NotOrdered = 16,
    /// The comment has no map.
    NoMap = 17,
    /// A line of the map is none that may stand there.
    BadMapLine = 18,
    /// The map is of other counts.
    MapMismatch = 19,
    /// No circuit has this image and this map.
    MapForged = 20,
    /// The circuit has justice properties or fairness constraints. They speak of runs without end.
    NotUnrollable = 21,
    /// The unrolled circuit, or its clauses, would have too many variables, outputs or bad states.
    TooLargeUnrolled = 22,
    /// The line is no line of a stimulus of this circuit.
    BadStimulus = 23,
    /// The line is not the one that is due in a witness file of this circuit.
    BadWitness = 24,
    /// Outputs were to become bad states, and the circuit has bad states.
    HasBad = 25,
    /// Clauses say that a bad state is reached, and there is none.
    NoBadStates = 26,
    /// The circuit has no bad state of this number.
    NoSuchBadState = 27,
    /// The line is none of a solver's answer.
    BadAnswer = 28,
    /// The answer is that the clauses cannot be satisfied.
    Unsatisfiable = 29,
    /// The answer is that this is not known.
    Unknown = 30,
    /// The answer has values, and no bad state is reached by them.
    NotReached = 31,
    /// The refutation is at its end, and refutes nothing.
    NoRefutation = 32,
    /// The line is none of a refutation, or has a variable that no clause has.
    BadRefutation = 33,
    /// Unit propagation does not show that the clause in the line follows.
    DoesNotFollow = 34,
    /// The line is none of an invariant's file.
    BadInvariant = 35,
    /// The row in the line has not as many characters as the model has latches.
    NotEachLatch = 36,
    /// A first state may meet the cube in the line.
    MetAtStart = 37,
    /// With the invariant the circuit would have more variables, constraints or bad states than
    /// fit.
    TooLargeInvariant = 38,
    /// The counts do not fit one another, or the words, the bytes or the names.
    BadCounts = 39,
    /// A value is neither 0, 1 nor 2.
    BadValue = 40,
    /// The circuit has justice properties or fairness constraints, and was to be compared.
    NotComparable = 41,
    /// The circuit has not as many inputs as the one with which it is compared.
    OtherInputs = 42,
    /// It has not as many outputs and bad states.
    OtherOutputs = 43,
    /// The miter of two circuits would have too many variables, constraints or bad states.
    TooLargeToCompare = 44,
    /// What is at this place has no name, and was to be paired by it.
    NoName = 45,
    /// What is at this place has the name of something before it, and was to be paired by it.
    NameTwice = 46,
    /// What is at this place has a name that nothing of the other circuit has.
    NoSuchName = 47,
    /// The circuit has no justice property of this number.
    NoSuchJustice = 48,
    /// With the latches that find a loop the circuit would have more variables than fit.
    TooLargeJustice = 49,
}

/// Each kind, by its number.
pub const KINDS: [Kind; 49] = [
    Kind::NotAiger,
    Kind::BadHeader,
    Kind::TooLarge,
    Kind::BadLine,
    Kind::NotVariable,
    Kind::LiteralRange,
    Kind::BadReset,
    Kind::Truncated,
    Kind::BadDelta,
    Kind::BadSymbol,
    Kind::SymbolRange,
    Kind::SymbolTwice,
    Kind::Redefined,
    Kind::Undefined,
    Kind::Cyclic,
    Kind::NotOrdered,
    Kind::NoMap,
    Kind::BadMapLine,
    Kind::MapMismatch,
    Kind::MapForged,
    Kind::NotUnrollable,
    Kind::TooLargeUnrolled,
    Kind::BadStimulus,
    Kind::BadWitness,
    Kind::HasBad,
    Kind::NoBadStates,
    Kind::NoSuchBadState,
    Kind::BadAnswer,
    Kind::Unsatisfiable,
    Kind::Unknown,
    Kind::NotReached,
    Kind::NoRefutation,
    Kind::BadRefutation,
    Kind::DoesNotFollow,
    Kind::BadInvariant,
    Kind::NotEachLatch,
    Kind::MetAtStart,
    Kind::TooLargeInvariant,
    Kind::BadCounts,
    Kind::BadValue,
    Kind::NotComparable,
    Kind::OtherInputs,
    Kind::OtherOutputs,
    Kind::TooLargeToCompare,
    Kind::NoName,
    Kind::NameTwice,
    Kind::NoSuchName,
    Kind::NoSuchJustice,
    Kind::TooLargeJustice,
];

impl Kind {
    /// Its number in the library's interface.
    pub fn number(self) -> u32
        ensures { result ≡ kind_number self }
    {
        self as u32
    }

    /// The kind of this number, if there is one.
    pub fn of_number(number: u32) -> Option<Kind>
        ensures { result ≡ kind_of_number number }
    {
        KINDS.iter().copied().find(|kind| kind.number() == number)
    }
}
