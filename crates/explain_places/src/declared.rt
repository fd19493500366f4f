// The declaration of a name, among tokens.

use crate::brackets::{close_of, is_mark, open_before};
use c_lex::{Mark, TokenKind, Tokens, Word};

// Whether the keyword can stand right before a declarator.
fn is_type_word(word: Word) -> bool {
    matches!(
        word,
        Word::Char
            | Word::Short
            | Word::Int
            | Word::Long
            | Word::Signed
            | Word::Unsigned
            | Word::Boolean
            | Word::Void
            | Word::Const
            | Word::Static
            | Word::Extern
            | Word::Auto
            | Word::Register
    )
}

fn is_tag_word(kind: Option<TokenKind>) -> bool {
    matches!(
        kind,
        Some(TokenKind::Keyword(Word::Struct | Word::Union | Word::Enum))
    )
}

fn is_word_of_type(kind: Option<TokenKind>) -> bool {
    match kind {
        Some(TokenKind::Keyword(word)) => is_type_word(word),
        _ => false,
    }
}

// The token before this one that is no `*` and no `const`.
fn before_stars(tokens: &Tokens<'_>, at: u32) -> u32 {
    for back in 1..=at {
        let before = at.saturating_sub(back);
        let kind = tokens.kind(before);
        if kind != Some(TokenKind::Punct(Mark::Star))
            && kind != Some(TokenKind::Keyword(Word::Const))
        {
            return before;
        }
    }
    0
}

// Whether a name there, with stars behind it, begins a declaration.
fn begins_pointers(tokens: &Tokens<'_>, at: u32) -> bool {
    let before = tokens.kind(at.saturating_sub(1));
    is_tag_word(before)
        || is_word_of_type(before)
        || before == Some(TokenKind::Punct(Mark::Semicolon))
        || before == Some(TokenKind::Punct(Mark::OpenBrace))
        || before == Some(TokenKind::Punct(Mark::CloseBrace))
}

// Whether a declaration begins at this token.
fn begins_declaration(tokens: &Tokens<'_>, at: u32) -> bool {
    let kind = tokens.kind(at);
    if is_word_of_type(kind) || is_tag_word(kind) {
        return true;
    }
    kind == Some(TokenKind::Name) && tokens.kind(at.saturating_add(1)) == Some(TokenKind::Name)
}

fn ends_statement(kind: Option<TokenKind>) -> bool {
    matches!(
        kind,
        Some(TokenKind::Punct(
            Mark::Semicolon | Mark::OpenBrace | Mark::CloseBrace | Mark::OpenParen
        ))
    )
}

// The first token of the statement in which this token stands, or of its part in parentheses.
fn statement_start(tokens: &Tokens<'_>, at: u32) -> u32 {
    for back in 1..=at {
        let before = at.saturating_sub(back);
        if ends_statement(tokens.kind(before)) {
            return before.saturating_add(1);
        }
    }
    0
}

// Whether the name at this token is declared there.
fn is_declarator(tokens: &Tokens<'_>, at: u32) -> bool {
    if at == 0 {
        return false;
    }
    let before = at.saturating_sub(1);
    match tokens.kind(before) {
        Some(TokenKind::Keyword(word)) => is_type_word(word),
        Some(TokenKind::Name) => true,
        Some(TokenKind::Punct(Mark::Star)) => {
            let word = before_stars(tokens, at);
            match tokens.kind(word) {
                Some(TokenKind::Keyword(word)) => is_type_word(word),
                Some(TokenKind::Name) => begins_pointers(tokens, word),
                Some(TokenKind::Punct(Mark::Comma)) => {
                    begins_declaration(tokens, statement_start(tokens, word))
                }
                _ => false,
            }
        }
        Some(TokenKind::Punct(Mark::Comma)) => {
            begins_declaration(tokens, statement_start(tokens, before))
        }
        _ => false,
    }
}

// Whether this brace opens the members of a structure, a union or an enumeration.
fn opens_members(tokens: &Tokens<'_>, open: u32) -> bool {
    let before = open.saturating_sub(1);
    is_tag_word(tokens.kind(before)) || is_tag_word(tokens.kind(before.saturating_sub(1)))
}

// The last token of the statement behind this one.
fn body_end(tokens: &Tokens<'_>, close: u32) -> u32 {
    let next = close.saturating_add(1);
    if is_mark(tokens, next, Mark::OpenBrace) {
        return close_of(tokens, next);
    }
    for at in next..tokens.len() {
        if is_mark(tokens, at, Mark::Semicolon) {
            return at;
        }
    }
    tokens.len()
}

// The last token of the scope of what is declared in these parentheses: parameters, or the first part of `for`.
fn scope_of_parentheses(tokens: &Tokens<'_>, open: u32) -> u32 {
    let close = close_of(tokens, open);
    let is_for = tokens.kind(open.saturating_sub(1)) == Some(TokenKind::Keyword(Word::For));
    if is_for || is_mark(tokens, close.saturating_add(1), Mark::OpenBrace) {
        return body_end(tokens, close);
    }
    close
}

// The last token of the scope of a name that is declared there (6.2.1); none, where it is the name of a member.
fn scope_end(tokens: &Tokens<'_>, at: u32) -> Option<u32> {
    let Some(open) = open_before(tokens, at) else {
        return Some(tokens.len());
    };
    if is_mark(tokens, open, Mark::OpenParen) {
        return Some(scope_of_parentheses(tokens, open));
    }
    if opens_members(tokens, open) {
        return None;
    }
    Some(close_of(tokens, open))
}

// Whether the name at this token declares what it means at the later token.
fn declares(tokens: &Tokens<'_>, at: u32, later: u32) -> bool {
    if !is_declarator(tokens, at) {
        return false;
    }
    match scope_end(tokens, at) {
        Some(end) => later <= end,
        None => false,
    }
}

// Whether the token is spelled so.
fn is_spelled(tokens: &Tokens<'_>, at: u32, name: &[u8]) -> bool {
    if at < tokens.len() {
        tokens.text(at) == name
    } else {
        false
    }
}

/// The token that declares the name at this token, as far as the tokens alone tell it: the last one before it with that
/// name that stands as a declarator does and whose scope reaches so far.
pub fn declaration_of(tokens: &Tokens<'_>, name: u32) -> Option<u32> {
    if name >= tokens.len() {
        return None;
    }
    let spelling = tokens.text(name);
    for back in 0..=name {
        let at = name.saturating_sub(back);
        if is_spelled(tokens, at, spelling) && declares(tokens, at, name) {
            return Some(at);
        }
    }
    None
}
