// The sentence of a clause, round the text of the expression.

use ub_base::Clause;

/// A sentence: what stands before the expression, what behind it, and whether the type of its value follows.
#[derive(Clone, Copy, PartialEq, Eq)]
pub struct Head {
    pub before: &'static str,
    pub behind: &'static str,
    pub is_typed: bool,
}

fn plain(behind: &'static str) -> Head {
    Head {
        before: "",
        behind,
        is_typed: false,
    }
}

fn typed(behind: &'static str) -> Head {
    Head {
        before: "",
        behind,
        is_typed: true,
    }
}

fn call(behind: &'static str) -> Head {
    Head {
        before: "in ",
        behind,
        is_typed: false,
    }
}

/// The sentence of a clause that an expression breaks; `writes` says that the expression stores.
pub fn head_of(clause: Clause, writes: bool) -> Head {
    match clause {
        Clause::DeadObject => {
            if writes {
                plain(" is an access to an object that has ended")
            } else {
                plain(" is read, and the object it points to has ended")
            }
        }
        Clause::TrapRepresentation => plain(" is read as _Bool, and holds neither 0 nor 1"),
        Clause::PointerAlignment => plain(" hasn't the alignment of the type it is converted to"),
        Clause::StoreToLiteral => plain(" stores into a string literal"),
        Clause::Unsequenced => plain(" is unsequenced against another access"),
        Clause::Exceptional => typed(" isn't in "),
        Clause::IncompatibleCall => plain(
            " calls a function through a type that isn't the function's",
        ),
        Clause::InvalidPointer => plain(" follows a pointer that is null or points to no object"),
        Clause::DivideByZero => plain(" divides by zero"),
        Clause::Unrepresentable => typed(" has a quotient that isn't in "),
        Clause::OutOfBounds => {
            if writes {
                plain(" is written outside its object")
            } else {
                plain(" goes outside the object that its pointer points into")
            }
        }
        Clause::PointerDifference => plain(" subtracts pointers that don't point into one array"),
        Clause::ShiftCount => plain(" shifts by less than 0, or by the width of its type or more"),
        Clause::LeftShift => typed(" isn't in "),
        _ => head_of_other(clause),
    }
}

fn head_of_other(clause: Clause) -> Head {
    match clause {
        Clause::PointerComparison => plain(" orders pointers that don't point into one object"),
        Clause::OverlappingAssignment => plain(" assigns bytes that overlap their target in part"),
        Clause::EffectiveType => plain(
            " accesses bytes by another type than they were stored with",
        ),
        Clause::StoreToConst => plain(" stores into an object that is defined const"),
        Clause::MissingValue => plain(" has no value, and it is used"),
        Clause::LibraryArgument => call(", an argument is none that the function takes"),
        Clause::TooFewArguments => call(", the format asks for more arguments than are given"),
        Clause::Conversion => call(", a conversion is given another type than it takes"),
        Clause::Free => call(", the pointer is none that can be freed"),
        Clause::Realloc => call(", the pointer is none that can be reallocated"),
        Clause::MemcpyOverlap => call(", the two ranges of bytes overlap"),
        Clause::StrcpyOverlap => call(", the two strings overlap"),
        Clause::Indeterminate => plain(" is read, and holds no value"),
        _ => plain(""),
    }
}
