// Names that stand where a type has to, and declarations without one.

use crate::around::{
    begins_type, goes_before_type, is_mark, is_name, kind_before, takes_parentheses,
};
use crate::part::Part;
use crate::reason::Reason;
use c_lex::{Mark, TokenKind, Tokens, Word};
use explain_places::{close_of, open_before};

// Whether a declaration or a statement may begin behind it.
fn ends_item(kind: Option<TokenKind>) -> bool {
    kind.is_none()
        || is_mark(kind, Mark::Semicolon)
        || is_mark(kind, Mark::OpenBrace)
        || is_mark(kind, Mark::CloseBrace)
        || goes_before_type(kind)
}

// Whether a declarator may begin with it.
fn begins_declarator(kind: Option<TokenKind>) -> bool {
    is_name(kind) || is_mark(kind, Mark::Star)
}

// The name right before this one, where a declaration begins with it: it is meant as a type.
fn type_before(tokens: &Tokens<'_>, at: u32) -> Option<Reason> {
    let is_type = is_name(kind_before(tokens, at, 1))
        && begins_declarator(tokens.kind(at))
        && (ends_item(kind_before(tokens, at, 2)) || is_head_of_loop(tokens, at));
    if is_type {
        Some(Reason::NoType(at.saturating_sub(1)))
    } else {
        None
    }
}

// Whether the name before this token is the first one in the parentheses of a `for`.
fn is_head_of_loop(tokens: &Tokens<'_>, at: u32) -> bool {
    is_mark(kind_before(tokens, at, 2), Mark::OpenParen)
        && kind_before(tokens, at, 3) == Some(TokenKind::Keyword(Word::For))
}

// Whether only names and commas stand between these two.
fn are_names(tokens: &Tokens<'_>, from: u32, to: u32) -> bool {
    for at in from..to {
        if !is_name(tokens.kind(at)) && !is_mark(tokens.kind(at), Mark::Comma) {
            return false;
        }
    }
    true
}

// A name in the parentheses of a declarator, where a type has to stand.
fn parameter(tokens: &Tokens<'_>, open: u32, at: u32) -> Reason {
    let close = close_of(tokens, open);
    let behind = tokens.kind(close.saturating_add(1));
    if are_names(tokens, at, close) && (begins_type(behind) || begins_declarator(behind)) {
        Reason::LeftOut(Part::OldDefinition, at)
    } else {
        Reason::NoType(at)
    }
}

// A name at the beginning of a declaration that isn't known as a type.
fn beginning(tokens: &Tokens<'_>, at: u32) -> Reason {
    if begins_declarator(tokens.kind(at.saturating_add(1))) {
        Reason::NoType(at)
    } else {
        Reason::Untyped(at)
    }
}

// A refused name where a type has to stand: first in a declaration or a parameter.
fn name_refused(tokens: &Tokens<'_>, at: u32) -> Option<Reason> {
    let before = kind_before(tokens, at, 1);
    let in_parentheses = is_mark(before, Mark::OpenParen) || is_mark(before, Mark::Comma);
    match open_before(tokens, at) {
        Some(open) if in_parentheses && is_mark(tokens.kind(open), Mark::OpenParen) => {
            Some(parameter(tokens, open, at))
        }
        _ if ends_item(before) => Some(beginning(tokens, at)),
        _ => None,
    }
}

// The first token in front of the stars before this one.
fn before_stars(tokens: &Tokens<'_>, at: u32) -> u32 {
    for back in 1..=at {
        let found = at.saturating_sub(back);
        if !is_mark(tokens.kind(found), Mark::Star) {
            return found;
        }
    }
    0
}

// The name in `(NAME *`, or in `(NAME`, before the closing parenthesis at this token, where that is no call.
fn cast_type(tokens: &Tokens<'_>, close: u32) -> Option<Reason> {
    let name = before_stars(tokens, close);
    let is_cast = is_name(tokens.kind(name))
        && is_mark(kind_before(tokens, name, 1), Mark::OpenParen)
        && !takes_parentheses(kind_before(tokens, name, 2));
    if is_cast {
        Some(Reason::NoType(name))
    } else {
        None
    }
}

fn is_operand(kind: Option<TokenKind>) -> bool {
    matches!(
        kind,
        Some(TokenKind::Name | TokenKind::Number | TokenKind::CharLit | TokenKind::StringLit)
    )
}

// A cast to a name that isn't known as a type.
fn cast_refused(tokens: &Tokens<'_>, at: u32) -> Option<Reason> {
    let kind = tokens.kind(at);
    if is_mark(kind, Mark::CloseParen) && is_mark(kind_before(tokens, at, 1), Mark::Star) {
        cast_type(tokens, at)
    } else if is_operand(kind) && is_mark(kind_before(tokens, at, 1), Mark::CloseParen) {
        cast_type(tokens, at.saturating_sub(1))
    } else {
        None
    }
}

/// Which name was meant as a type at a refused token, or which declaration has none.
pub fn type_refused(tokens: &Tokens<'_>, at: u32) -> Option<Reason> {
    if let Some(found) = type_before(tokens, at) {
        return Some(found);
    }
    if is_name(tokens.kind(at))
        && let Some(found) = name_refused(tokens, at)
    {
        return Some(found);
    }
    cast_refused(tokens, at)
}
