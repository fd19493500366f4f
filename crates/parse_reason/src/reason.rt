// Why no program goes on with a token.

use crate::around::{
    begins_type, is_mark, is_name, is_word, kind_before, spelling, takes_parentheses,
};
use crate::missing::Missing;
use crate::part::Part;
use crate::types::type_refused;
use crate::words::{is_free_word, is_reserved_word, part_of_word};
use c_lex::{Mark, TokenKind, Tokens, Word};
use explain_places::{definition_before, open_before};

/// Why no program goes on with a token. Tokens are named by their numbers.
#[derive(Clone, Copy, PartialEq, Eq)]
pub enum Reason {
    /// What this token belongs to is left out.
    LeftOut(Part, u32),
    /// The text isn't preprocessed: a line of it defines this name as a macro.
    Unexpanded(u32),
    /// With this one before it the text goes on.
    Missing(Missing),
    /// This name is used as a type, and none before it declares it as one.
    NoType(u32),
    /// What this name begins is a declaration without a type.
    Untyped(u32),
    /// An initializer list has no initializer.
    EmptyInitializer,
    /// A structure or union has no member.
    EmptyMembers,
    /// An enumeration has no constant.
    EmptyEnumerators,
    /// No `if` waits for this `else`.
    ElseAlone,
    /// The text ends, and this bracket is open.
    Unclosed(u32),
    /// The text ends too soon.
    Ended,
    /// Nothing more is known.
    Unexpected,
}

// The last word of compilers before this token, in the same declaration or statement.
fn word_before(tokens: &Tokens<'_>, at: u32) -> Option<u32> {
    for back in 1..=at {
        let found = at.saturating_sub(back);
        let kind = tokens.kind(found);
        if is_mark(kind, Mark::Semicolon)
            || is_mark(kind, Mark::OpenBrace)
            || is_mark(kind, Mark::CloseBrace)
        {
            return None;
        }
        if is_name(kind) && is_word_of_compilers(tokens, found) {
            return Some(found);
        }
    }
    None
}

// Whether compilers alone have this word; one that isn't reserved, before a parenthesis or a keyword.
fn is_word_of_compilers(tokens: &Tokens<'_>, at: u32) -> bool {
    let word = spelling(tokens, at);
    let behind = tokens.kind(at.saturating_add(1));
    is_reserved_word(word)
        || (is_free_word(word)
            && (is_mark(behind, Mark::OpenParen) || is_word(behind, Word::Volatile)))
}

// Whether the brace at this token holds members.
fn holds_members(tokens: &Tokens<'_>, brace: u32) -> bool {
    let back = if is_name(kind_before(tokens, brace, 1)) {
        2
    } else {
        1
    };
    let keyword = kind_before(tokens, brace, back);
    is_mark(tokens.kind(brace), Mark::OpenBrace)
        && (is_word(keyword, Word::Struct) || is_word(keyword, Word::Union))
}

fn holds_enumerators(tokens: &Tokens<'_>, brace: u32) -> bool {
    let back = if is_name(kind_before(tokens, brace, 1)) {
        2
    } else {
        1
    };
    is_word(kind_before(tokens, brace, back), Word::Enum)
}

fn is_among_members(tokens: &Tokens<'_>, at: u32) -> bool {
    match open_before(tokens, at) {
        Some(open) => holds_members(tokens, open),
        None => false,
    }
}

// A refused colon.
fn colon(tokens: &Tokens<'_>, at: u32) -> Option<Part> {
    if is_mark(kind_before(tokens, at, 1), Mark::Question) {
        Some(Part::ShortConditional)
    } else if is_among_members(tokens, at) {
        Some(Part::BitField)
    } else {
        None
    }
}

// Whether a type in parentheses stands before this token.
fn is_behind_type(tokens: &Tokens<'_>, at: u32) -> bool {
    let close = at.saturating_sub(1);
    match open_before(tokens, close) {
        Some(open) if is_mark(kind_before(tokens, at, 1), Mark::CloseParen) => {
            let first = tokens.kind(open.saturating_add(1));
            (begins_type(first) || is_name(first))
                && !takes_parentheses(kind_before(tokens, open, 1))
        }
        _ => false,
    }
}

// A refused brace that opens.
fn open_brace(tokens: &Tokens<'_>, at: u32) -> Option<Part> {
    if is_mark(kind_before(tokens, at, 1), Mark::OpenParen) {
        Some(Part::StatementExpression)
    } else if is_behind_type(tokens, at) {
        Some(Part::CompoundLiteral)
    } else {
        None
    }
}

fn is_in_brackets(tokens: &Tokens<'_>, at: u32) -> bool {
    match open_before(tokens, at) {
        Some(open) => is_mark(tokens.kind(open), Mark::OpenBracket),
        None => false,
    }
}

// A refused punctuator that belongs to what is left out.
fn mark_left_out(tokens: &Tokens<'_>, at: u32, mark: Mark) -> Option<Part> {
    let before = kind_before(tokens, at, 1);
    match mark {
        Mark::Colon => colon(tokens, at),
        Mark::OpenBrace => open_brace(tokens, at),
        Mark::CloseBracket if is_mark(before, Mark::Star) => Some(Part::VariableLength),
        Mark::AndAnd if is_name(tokens.kind(at.saturating_add(1))) => Some(Part::LabelAddress),
        Mark::Star if is_word(before, Word::Goto) => Some(Part::LabelAddress),
        Mark::Ellipsis if !is_mark(before, Mark::OpenParen) => Some(Part::Range),
        _ => None,
    }
}

// What a refused token belongs to that is left out.
fn left_out(tokens: &Tokens<'_>, at: u32) -> Option<Part> {
    match tokens.kind(at) {
        Some(TokenKind::Punct(mark)) => mark_left_out(tokens, at, mark),
        Some(TokenKind::Keyword(Word::Static)) if is_in_brackets(tokens, at) => {
            Some(Part::StaticLength)
        }
        Some(TokenKind::Keyword(_) | TokenKind::Name) => part_of_word(spelling(tokens, at)),
        _ => None,
    }
}

// Braces with nothing in them.
fn empty_braces(tokens: &Tokens<'_>, at: u32) -> Option<Reason> {
    let open = at.saturating_sub(1);
    if !is_mark(tokens.kind(at), Mark::CloseBrace)
        || !is_mark(kind_before(tokens, at, 1), Mark::OpenBrace)
    {
        return None;
    }
    if holds_members(tokens, open) {
        Some(Reason::EmptyMembers)
    } else if holds_enumerators(tokens, open) {
        Some(Reason::EmptyEnumerators)
    } else {
        Some(Reason::EmptyInitializer)
    }
}

// Whether a line before this token defines its name as a macro.
fn is_macro(tokens: &Tokens<'_>, at: u32) -> bool {
    match tokens.get(at) {
        Some(token) if token.kind == TokenKind::Name => {
            let name = spelling(tokens, at);
            definition_before(tokens.source(), name, token.start as usize).is_some()
        }
        _ => false,
    }
}

// A macro that isn't expanded, at this token or right before it.
fn unexpanded(tokens: &Tokens<'_>, at: u32) -> Option<Reason> {
    let before = at.saturating_sub(1);
    if is_macro(tokens, at) {
        Some(Reason::Unexpanded(at))
    } else if is_macro(tokens, before) {
        Some(Reason::Unexpanded(before))
    } else {
        None
    }
}

/// A reason that the tokens around this one tell.
pub fn told(tokens: &Tokens<'_>, at: u32) -> Option<Reason> {
    if let Some(found) = unexpanded(tokens, at) {
        return Some(found);
    }
    if let Some(word) = word_before(tokens, at) {
        return Some(Reason::LeftOut(Part::Word, word));
    }
    if let Some(part) = left_out(tokens, at) {
        return Some(Reason::LeftOut(part, at));
    }
    if is_word(tokens.kind(at), Word::Else) {
        return Some(Reason::ElseAlone);
    }
    match empty_braces(tokens, at) {
        Some(found) => Some(found),
        None => type_refused(tokens, at),
    }
}
