// Words and numbers that belong to a part of C which is left out.

use crate::part::Part;

fn is_word(token: &[u8], word: &str) -> bool {
    token == word.as_bytes()
}

fn is_one_of(token: &[u8], words: &[&str]) -> bool {
    words.iter().any(|word| is_word(token, word))
}

fn has_byte(token: &[u8], byte: u8) -> bool {
    token.iter().any(|b| *b == byte)
}

fn has_either(token: &[u8], lower: u8, upper: u8) -> bool {
    has_byte(token, lower) || has_byte(token, upper)
}

fn is_floating(number: &[u8]) -> bool {
    has_byte(number, b'.')
        || has_either(number, b'p', b'P')
        || (!has_either(number, b'x', b'X') && has_either(number, b'e', b'E'))
}

/// The part that a number belongs to which is no integer constant.
pub fn part_of_number(number: &[u8]) -> Option<Part> {
    if is_floating(number) {
        Some(Part::FloatingConstant)
    } else if has_either(number, b'b', b'B') && !has_either(number, b'x', b'X') {
        Some(Part::BinaryConstant)
    } else {
        None
    }
}

/// What a mark says of a number that is no integer constant.
pub fn kind_of(number: &[u8]) -> &'static str {
    if !is_floating(number) {
        "here"
    } else if has_either(number, b'f', b'F') && !has_either(number, b'x', b'X') {
        "a float"
    } else {
        "a double"
    }
}

/// Whether compilers alone have this word, and no program of C11 may give it a meaning (7.1.3p1).
pub fn is_reserved_word(token: &[u8]) -> bool {
    is_one_of(
        token,
        &[
            "__attribute__",
            "__attribute",
            "__extension__",
            "__asm__",
            "__asm",
            "__typeof__",
            "__typeof",
            "__label__",
            "__auto_type",
        ],
    ) || is_one_of(
        token,
        &[
            "__inline",
            "__inline__",
            "__restrict",
            "__restrict__",
            "__volatile__",
            "__volatile",
            "__const",
            "__const__",
            "__signed__",
        ],
    ) || is_one_of(
        token,
        &[
            "__int128",
            "__int128_t",
            "__alignof__",
            "__thread",
            "_Float16",
            "_Float64",
            "_Float128",
            "_Decimal64",
        ],
    ) || token.starts_with(b"__builtin_")
}

/// Whether compilers have this word besides C11's, where a program doesn't use it as a name.
pub fn is_free_word(token: &[u8]) -> bool {
    is_one_of(token, &["asm", "typeof"])
}

fn part_of_keyword(token: &[u8]) -> Option<Part> {
    if is_one_of(token, &["float", "double", "_Complex", "_Imaginary"]) {
        Some(Part::FloatingType)
    } else if is_word(token, "volatile") {
        Some(Part::Volatile)
    } else if is_one_of(token, &["_Atomic", "_Thread_local"]) {
        Some(Part::Threads)
    } else if is_word(token, "_Generic") {
        Some(Part::Generic)
    } else if is_word(token, "_Alignas") {
        Some(Part::Alignment)
    } else if is_word(token, "__func__") {
        Some(Part::FunctionName)
    } else {
        None
    }
}

/// The part that a keyword or a name belongs to which no program declares.
pub fn part_of_word(token: &[u8]) -> Option<Part> {
    match part_of_keyword(token) {
        Some(part) => Some(part),
        None if is_reserved_word(token) || is_free_word(token) => Some(Part::Word),
        None => None,
    }
}
