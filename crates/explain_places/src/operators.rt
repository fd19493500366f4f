// How tightly operators bind.

use c_lex::{Mark, TokenKind, Tokens};

/// Of the comma.
pub const COMMA: u8 = 1;
/// Of assignments.
pub const ASSIGN: u8 = 2;
/// Of `?` and `:`.
pub const CHOICE: u8 = 3;

pub const OR: u8 = 4;

pub const AND: u8 = 5;

pub const BIT_OR: u8 = 6;

pub const BIT_XOR: u8 = 7;

pub const BIT_AND: u8 = 8;

pub const EQUAL: u8 = 9;

pub const RELATION: u8 = 10;

pub const SHIFT: u8 = 11;

pub const ADD: u8 = 12;

pub const MULTIPLY: u8 = 13;

// How tightly the mark binds between two operands; 0 where it joins none.
fn binding_of(mark: Mark) -> u8 {
    match mark {
        Mark::Comma => COMMA,
        Mark::Equal
        | Mark::StarEqual
        | Mark::SlashEqual
        | Mark::PercentEqual
        | Mark::PlusEqual
        | Mark::MinusEqual
        | Mark::ShiftLeftEqual
        | Mark::ShiftRightEqual
        | Mark::AmpersandEqual
        | Mark::CaretEqual
        | Mark::BarEqual => ASSIGN,
        Mark::Question | Mark::Colon => CHOICE,
        Mark::OrOr => OR,
        Mark::AndAnd => AND,
        Mark::Bar => BIT_OR,
        Mark::Caret => BIT_XOR,
        Mark::Ampersand => BIT_AND,
        Mark::EqualEqual | Mark::BangEqual => EQUAL,
        Mark::Less | Mark::Greater | Mark::LessEqual | Mark::GreaterEqual => RELATION,
        Mark::ShiftLeft | Mark::ShiftRight => SHIFT,
        Mark::Plus | Mark::Minus => ADD,
        Mark::Star | Mark::Slash | Mark::Percent => MULTIPLY,
        _ => 0,
    }
}

/// How tightly the token binds between two operands; 0 where it joins none.
pub fn binding(kind: Option<TokenKind>) -> u8 {
    match kind {
        Some(TokenKind::Punct(mark)) => binding_of(mark),
        _ => 0,
    }
}

/// Whether the token ends an operand, so that a `-` behind it has two.
pub fn ends_operand(kind: Option<TokenKind>) -> bool {
    match kind {
        Some(TokenKind::Name | TokenKind::Number | TokenKind::CharLit | TokenKind::StringLit) =>
            true,
        Some(TokenKind::Punct(mark)) => matches!(
            mark,
            Mark::CloseParen | Mark::CloseBracket | Mark::PlusPlus | Mark::MinusMinus
        ),
        _ => false,
    }
}

/// Whether an operator between two operands stands there, and how tightly it binds; 0 where none does.
pub fn joining(tokens: &Tokens<'_>, at: u32) -> u8 {
    if ends_operand(tokens.kind(at.saturating_sub(1))) {
        binding(tokens.kind(at))
    } else {
        0
    }
}
