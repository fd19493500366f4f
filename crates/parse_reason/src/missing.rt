// A token that would let a text go on.

/// A token that is missing before another one.
#[derive(Clone, Copy, PartialEq, Eq)]
pub enum Missing {
    Semicolon,
    Comma,
    CloseParen,
    CloseBracket,
    CloseBrace,
}
