// What mends a program.

use ub_base::Clause;

/// What mends a program that breaks this clause, where that doesn't hang on what is meant.
pub fn hint_of(clause: Clause) -> Option<&'static str> {
    match clause {
        Clause::DeadObject => Some("Read what is still needed before the object ends."),
        Clause::TrapRepresentation => Some("Store only 0 or 1 in an object of type _Bool."),
        Clause::PointerAlignment => Some("Copy the bytes into an object of that type with memcpy."),
        Clause::StoreToLiteral => Some("Let an array hold the text: `char text[] = \"..\";`."),
        Clause::Exceptional => Some("Widen an operand first, or test the operands before."),
        Clause::InvalidPointer => Some("Test the pointer before it is followed."),
        Clause::DivideByZero => Some("Test the divisor before."),
        Clause::Unrepresentable => Some("Test for -1 before the division."),
        Clause::ShiftCount => Some("Test the count before, or shift a wider type."),
        Clause::LeftShift => Some("Shift an unsigned type."),
        Clause::EffectiveType => Some("Copy the bytes with memcpy."),
        Clause::MissingValue => Some("End each way through the function with a return of a value."),
        Clause::MemcpyOverlap => Some("memmove takes bytes that overlap."),
        Clause::StrcpyOverlap => Some("memmove takes bytes that overlap."),
        Clause::Indeterminate => Some("Give every object and member a value first: `= {0}`."),
        Clause::Free => Some("Set a pointer to NULL where it is freed; freeing that does nothing."),
        _ => None,
    }
}
