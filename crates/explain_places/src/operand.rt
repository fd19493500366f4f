// Where operands end.

use crate::brackets::{Side, close_of, is_mark, side_of};
use crate::operators::joining;
use c_lex::{Mark, TokenKind, Tokens};

// Whether an operand that began before this token, outside of brackets, ends before it, where operators up to this level
// do not belong to it.
fn ends_before(tokens: &Tokens<'_>, at: u32, level: u8) -> bool {
    let kind = tokens.kind(at);
    let joined = joining(tokens, at);
    side_of(kind) == Side::Closes
        || kind == Some(TokenKind::Punct(Mark::Semicolon))
        || kind == Some(TokenKind::Punct(Mark::OpenBrace))
        || (joined != 0 && joined <= level)
}

/// The last token of the operand that begins at this one, where operators up to this level do not belong to it.
pub fn operand_end(tokens: &Tokens<'_>, from: u32, level: u8) -> u32 {
    let mut depth = 0u32;
    let mut last = from;
    for at in from..tokens.len() {
        if depth == 0 && at != from && ends_before(tokens, at, level) {
            return last;
        }
        match side_of(tokens.kind(at)) {
            Side::Opens => depth = depth.saturating_add(1),
            Side::Closes => depth = depth.saturating_sub(1),
            Side::Neither => {}
        }
        last = at;
    }
    last
}

// The last of the string literals from this one on.
fn strings_end(tokens: &Tokens<'_>, from: u32) -> u32 {
    let mut last = from;
    for at in from..tokens.len() {
        if tokens.kind(at) != Some(TokenKind::StringLit) {
            return last;
        }
        last = at;
    }
    last
}

/// The last token of the primary expression that begins at this one (6.5.1).
pub fn primary_end(tokens: &Tokens<'_>, from: u32) -> u32 {
    match tokens.kind(from) {
        Some(TokenKind::Punct(Mark::OpenParen)) => close_of(tokens, from),
        Some(TokenKind::StringLit) => strings_end(tokens, from),
        _ => from,
    }
}

// The last token of the postfix operator that begins at this token; the token itself, where it is none.
fn step_end(tokens: &Tokens<'_>, at: u32) -> u32 {
    match tokens.kind(at) {
        Some(TokenKind::Punct(Mark::OpenParen | Mark::OpenBracket)) => close_of(tokens, at),
        Some(TokenKind::Punct(Mark::Dot | Mark::Arrow)) => at.saturating_add(1),
        _ => at,
    }
}

/// The last so many postfix operators behind the primary expression at this token (6.5.2): where the last of them begins,
/// and where it ends.
pub fn steps_end(tokens: &Tokens<'_>, from: u32, steps: u32) -> (u32, u32) {
    let mut last = primary_end(tokens, from);
    let mut operator = from;
    for _ in 0..steps {
        operator = last.saturating_add(1);
        last = step_end(tokens, operator);
    }
    (operator, last)
}

/// The operator of this level that stands next before this token; `from`, where there is none behind that token.
pub fn operator_before(tokens: &Tokens<'_>, from: u32, before: u32, level: u8) -> u32 {
    for back in 1..=before.saturating_sub(from) {
        let at = before.saturating_sub(back);
        if joining(tokens, at) == level {
            return at;
        }
    }
    from
}

/// Whether the operand at this token stands in brackets of a subscript.
pub fn is_index(tokens: &Tokens<'_>, from: u32, at: u32) -> bool {
    for back in 1..=at.saturating_sub(from) {
        let before = at.saturating_sub(back);
        if !is_mark(tokens, before, Mark::OpenParen) {
            return is_mark(tokens, before, Mark::OpenBracket);
        }
    }
    false
}
