// The paragraphs that reports name, and the one free refusal.
ghost use Rattle.std.specs.Prelude.{◌≡◌, IfSome, IfNone, find};
ghost use Rattle.std.specs.Str.{bytes_eq};
ghost use Rattle.ub_base.specs.Clause.{clause_text, ClausesHaveOwnTexts, IsNoClause};

use std::alloc::{AllocError, AllocFailed};

/// Memory ran out.
#[derive(Clone, Copy, Debug, PartialEq, Eq)]
pub struct NoMemory;

impl From<AllocError> for NoMemory {
    fn from(_e: AllocError) -> NoMemory {
        NoMemory
    }
}

impl<T: Drop> From<AllocFailed<T>> for NoMemory {
    fn from(_e: AllocFailed<T>) -> NoMemory {
        NoMemory
    }
}

/// Which part of an evaluation an event is (own): a value computation, a side effect, or the body of a call.
#[derive(Clone, Copy, Debug, PartialEq, Eq, PartialOrd, Ord, Hash)]
pub enum Kind {
    Val,
    Eff,
    Body,
}

/// A limit that a run would pass, or a printf directive that is left out (own).
#[derive(Clone, Copy, Debug, PartialEq, Eq)]
pub enum Cause {
    Output,
    Created,
    Depth,
    Conversion,
    Directive,
}

/// The paragraph of ISO/IEC 9899:2011 that makes a run undefined.
#[derive(Clone, Copy, Debug, PartialEq, Eq)]
pub enum Clause {
    /// A pointer is loaded whose every candidate object is dead, or a dead object is accessed.
    DeadObject,
    /// A `_Bool` byte other than 0 or 1 is loaded as `_Bool`.
    TrapRepresentation,
    /// A pointer is converted to an object pointer type whose alignment its address lacks.
    PointerAlignment,
    /// A store, other than its initialization, to a string literal.
    StoreToLiteral,
    /// Two unsequenced accesses of one byte, at least one of them a write.
    Unsequenced,
    /// The result of a signed operation isn't in its type.
    Exceptional,
    /// A call through a function type that isn't compatible with the function's.
    IncompatibleCall,
    /// An access, a `->` or a call through a null or invalid pointer, or a misaligned access.
    InvalidPointer,
    /// `/` or `%` by zero.
    DivideByZero,
    /// `/` or `%` whose quotient isn't in the type.
    Unrepresentable,
    /// Pointer arithmetic that leaves the object and its one past, or an access outside the object.
    OutOfBounds,
    /// A subtraction of pointers without a common object, or whose distance is no multiple of the size.
    PointerDifference,
    /// A shift count that is negative or at least the width.
    ShiftCount,
    /// A left shift of a negative value, or whose result isn't in the type.
    LeftShift,
    /// A relational comparison of pointers without a common object.
    PointerComparison,
    /// A struct or union value is stored that was loaded from a place which overlaps the target inexactly.
    OverlappingAssignment,
    /// A scalar access whose type doesn't suit the bytes that it meets.
    EffectiveType,
    /// A store, other than its initialization, to an object defined with a const type.
    StoreToConst,
    /// The value of a call is used, and its function gave none.
    MissingValue,
    /// An invalid argument of a library function.
    LibraryArgument,
    /// Too few arguments for the format.
    TooFewArguments,
    /// An invalid conversion specification, or an argument of the wrong type.
    Conversion,
    /// `free` of a pointer that isn't null and isn't the start of a live heap object.
    Free,
    /// `realloc` of such a pointer.
    Realloc,
    /// `memcpy` between overlapping ranges.
    MemcpyOverlap,
    /// `strcpy` between overlapping ranges.
    StrcpyOverlap,
    /// An unwritten byte is read.
    Indeterminate,
}

// Every clause.
const CLAUSES: [Clause; 27] = [
    Clause::DeadObject,
    Clause::TrapRepresentation,
    Clause::PointerAlignment,
    Clause::StoreToLiteral,
    Clause::Unsequenced,
    Clause::Exceptional,
    Clause::IncompatibleCall,
    Clause::InvalidPointer,
    Clause::DivideByZero,
    Clause::Unrepresentable,
    Clause::OutOfBounds,
    Clause::PointerDifference,
    Clause::ShiftCount,
    Clause::LeftShift,
    Clause::PointerComparison,
    Clause::OverlappingAssignment,
    Clause::EffectiveType,
    Clause::StoreToConst,
    Clause::MissingValue,
    Clause::LibraryArgument,
    Clause::TooFewArguments,
    Clause::Conversion,
    Clause::Free,
    Clause::Realloc,
    Clause::MemcpyOverlap,
    Clause::StrcpyOverlap,
    Clause::Indeterminate,
];

impl Clause {
    /// As the report prints it.
    pub fn text(self) -> &'static str
        ensures { result.now ≡ clause_text self }
    {
        match self {
            Clause::DeadObject => "6.2.4p2",
            Clause::TrapRepresentation => "6.2.6.1p5",
            Clause::PointerAlignment => "6.3.2.3p7",
            Clause::StoreToLiteral => "6.4.5p7",
            Clause::Unsequenced => "6.5p2",
            Clause::Exceptional => "6.5p5",
            Clause::IncompatibleCall => "6.5.2.2p9",
            Clause::InvalidPointer => "6.5.3.2p4",
            Clause::DivideByZero => "6.5.5p5",
            Clause::Unrepresentable => "6.5.5p6",
            Clause::OutOfBounds => "6.5.6p8",
            Clause::PointerDifference => "6.5.6p9",
            Clause::ShiftCount => "6.5.7p3",
            Clause::LeftShift => "6.5.7p4",
            Clause::PointerComparison => "6.5.8p5",
            Clause::OverlappingAssignment => "6.5.16.1p3",
            Clause::EffectiveType => "6.5p7",
            Clause::StoreToConst => "6.7.3p6",
            Clause::MissingValue => "6.9.1p12",
            Clause::LibraryArgument => "7.1.4p1",
            Clause::TooFewArguments => "7.21.6.1p2",
            Clause::Conversion => "7.21.6.1p9",
            Clause::Free => "7.22.3.3p2",
            Clause::Realloc => "7.22.3.5p3",
            Clause::MemcpyOverlap => "7.24.2.1p2",
            Clause::StrcpyOverlap => "7.24.2.3p2",
            Clause::Indeterminate => "J.2-indeterminate",
        }
    }

    /// The clause that has this text.
    pub fn from_text(text: &str) -> Option<Clause>
        ensures found { IfSome result (λ clause. clause_text clause ≡ text.now) }
        ensures none { IfNone result (IsNoClause text.now) }
    {
        first_with_text(text)
    }
}

fn first_with_text(text: &str) -> Option<Clause>
    ensures { result ≡ find (λ clause. bytes_eq (clause_text clause) text.now) CLAUSES }
{
    CLAUSES.iter().copied().find(|clause| clause.text() == text)
}

/// Different clauses have different texts.
pub fn law_clause_texts()
    ensures { ClausesHaveOwnTexts }
{}
