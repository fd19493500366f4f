// The rule that each clause states.

use ub_base::Clause;

/// The rule of a race of two writes.
pub const TWO_WRITES: &str =
    "6.5p2: two unsequenced side effects on one scalar object are undefined.";

/// The rule of a race of a write and a read.
pub const READ_AND_WRITE: &str =
    "6.5p2: a side effect that is unsequenced against another use of the same object's value is undefined.";

/// The rule of an access that begins one past the last element.
pub const PAST_THE_END: &str = "6.5.6p8: a pointer one past the last element mustn't be followed.";

/// The rule of a dependence on the order.
pub const ORDER_RULE: &str =
    "6.5.2.2p10: two calls that nothing sequences run one after the other, in either order.";

/// The rule of a clause, in one sentence with the clause before it.
pub fn rule_of(clause: Clause) -> &'static str {
    match clause {
        Clause::DeadObject => {
            "6.2.4p2: once an object has ended, a pointer to it has no value, and mustn't even be read."
        }
        Clause::TrapRepresentation => {
            "6.2.6.1p5: a byte other than 0 and 1 is no value of _Bool, and mustn't be read as one."
        }
        Clause::PointerAlignment => {
            "6.3.2.3p7: a pointer is converted only to a type whose alignment its address has."
        }
        Clause::StoreToLiteral => "6.4.5p7: a string literal mustn't be modified.",
        Clause::Unsequenced => READ_AND_WRITE,
        Clause::Exceptional => {
            "6.5p5: a result outside the range of its type is undefined. Only unsigned types wrap."
        }
        Clause::IncompatibleCall => {
            "6.5.2.2p9: a function is called only through a type that is compatible with its own."
        }
        Clause::InvalidPointer => {
            "6.5.3.2p4: a pointer that is null, or points to no object of its type, mustn't be followed."
        }
        Clause::DivideByZero => "6.5.5p5: dividing by zero is undefined, by % too.",
        Clause::Unrepresentable => {
            "6.5.5p6: a quotient outside the range of its type is undefined, and % with it."
        }
        Clause::OutOfBounds => {
            "6.5.6p8: a pointer stays in its array or one past the last element, and that one mustn't be followed."
        }
        Clause::PointerDifference => "6.5.6p9: only pointers into one array are subtracted.",
        Clause::ShiftCount => {
            "6.5.7p3: a shift count is at least 0 and less than the width of the promoted left operand."
        }
        Clause::LeftShift => {
            "6.5.7p4: shifting left a negative value, or to a result outside the type, is undefined."
        }
        _ => rule_of_other(clause),
    }
}

fn rule_of_other(clause: Clause) -> &'static str {
    match clause {
        Clause::PointerComparison => {
            "6.5.8p5: only pointers into one object are ordered by <, >, <= and >=."
        }
        Clause::OverlappingAssignment => {
            "6.5.16.1p3: what is assigned overlaps its target exactly or not at all."
        }
        Clause::EffectiveType => {
            "6.5p7: bytes are read by the type they were stored with, its signed or unsigned twin, or a character type."
        }
        Clause::StoreToConst => {
            "6.7.3p6: an object defined with a const type mustn't be modified, by whatever pointer."
        }
        Clause::MissingValue => {
            "6.9.1p12: a call whose function reached its } has no value, and none may be used."
        }
        Clause::LibraryArgument => {
            "7.1.4p1: an argument that a library function doesn't take is undefined."
        }
        Clause::TooFewArguments => {
            "7.21.6.1p2: a format mustn't ask for more arguments than are given."
        }
        Clause::Conversion => {
            "7.21.6.1p9: an argument that hasn't the type of its conversion is undefined."
        }
        Clause::Free => {
            "7.22.3.3p2: free takes null, or what malloc, calloc or realloc gave and nothing has freed since."
        }
        Clause::Realloc => {
            "7.22.3.5p3: realloc takes null, or what malloc, calloc or realloc gave and nothing has freed since."
        }
        Clause::MemcpyOverlap => "7.24.2.1p2: memcpy between bytes that overlap is undefined.",
        Clause::StrcpyOverlap => "7.24.2.3p2: strcpy between bytes that overlap is undefined.",
        Clause::Indeterminate => {
            "J.2, 6.7.9p10: an automatic object without initializer is indeterminate; reading one is undefined."
        }
        _ => "",
    }
}
