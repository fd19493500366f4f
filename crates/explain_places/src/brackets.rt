// Brackets among tokens.

use c_lex::{Mark, TokenKind, Tokens};

/// How a token changes the depth of brackets.
#[derive(Clone, Copy, PartialEq, Eq)]
pub enum Side {
    Opens,
    Closes,
    Neither,
}

pub fn side_of(kind: Option<TokenKind>) -> Side {
    match kind {
        Some(TokenKind::Punct(Mark::OpenParen | Mark::OpenBracket | Mark::OpenBrace)) =>
            Side::Opens,
        Some(TokenKind::Punct(Mark::CloseParen | Mark::CloseBracket | Mark::CloseBrace)) => {
            Side::Closes
        }
        _ => Side::Neither,
    }
}

/// The bracket that closes the one at this token; the last token, where none does.
pub fn close_of(tokens: &Tokens<'_>, open: u32) -> u32 {
    let mut depth = 0u32;
    for at in open..tokens.len() {
        match side_of(tokens.kind(at)) {
            Side::Opens => depth = depth.saturating_add(1),
            Side::Closes => {
                depth = depth.saturating_sub(1);
                if depth == 0 {
                    return at;
                }
            }
            Side::Neither => {}
        }
    }
    tokens.len().saturating_sub(1)
}

/// The token from `reach` on at which all brackets are closed that open from `first` on; `reach`, where none is.
pub fn closed_behind(tokens: &Tokens<'_>, first: u32, reach: u32) -> u32 {
    let mut depth = 0u32;
    for at in first..tokens.len() {
        match side_of(tokens.kind(at)) {
            Side::Opens => depth = depth.saturating_add(1),
            Side::Closes => depth = depth.saturating_sub(1),
            Side::Neither => {}
        }
        if at >= reach && depth == 0 {
            return at;
        }
    }
    reach
}

/// The innermost bracket that is open before this token.
pub fn open_before(tokens: &Tokens<'_>, before: u32) -> Option<u32> {
    let mut depth = 0u32;
    for back in 1..=before {
        let at = before.saturating_sub(back);
        match side_of(tokens.kind(at)) {
            Side::Closes => depth = depth.saturating_add(1),
            Side::Opens => {
                if depth == 0 {
                    return Some(at);
                }
                depth = depth.saturating_sub(1);
            }
            Side::Neither => {}
        }
    }
    None
}

/// Whether this mark stands there.
pub fn is_mark(tokens: &Tokens<'_>, at: u32, mark: Mark) -> bool {
    tokens.kind(at) == Some(TokenKind::Punct(mark))
}
