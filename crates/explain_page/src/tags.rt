// The names of structures and unions among tokens.

use c_lex::{Mark, TokenKind, Tokens, Word};
use std::alloc::Global;
use ub_base::NoMemory;

const MOST: usize = 1000;

/// Whether the token is `struct` or `union`.
pub fn is_tag_word(kind: Option<TokenKind>) -> bool {
    matches!(kind, Some(TokenKind::Keyword(Word::Struct | Word::Union)))
}

fn spelling<'a>(tokens: &Tokens<'a>, at: u32) -> &'a [u8] {
    if at < tokens.len() {
        tokens.text(at)
    } else {
        b""
    }
}

// Whether the name at this token was met before, among these.
fn is_known(tokens: &Tokens<'_>, names: &[u32], at: u32) -> bool {
    let name = spelling(tokens, at);
    for known in names {
        if spelling(tokens, *known) == name {
            return true;
        }
    }
    false
}

// The tag that the keyword before this token declares anew: its name, or the brace of one without a name.
fn declared(tokens: &Tokens<'_>, names: &[u32], at: u32) -> Option<u32> {
    match tokens.kind(at) {
        Some(TokenKind::Name) if !is_known(tokens, names, at) => Some(at),
        Some(TokenKind::Punct(Mark::OpenBrace)) => Some(at),
        _ => None,
    }
}

/// Where the structures and unions of a text are named, in the order in which it declares them, the first 1,000: for each the
/// token of its name, or of its brace where it has none. One that has the name of an earlier one in another scope isn't told
/// from that.
pub fn tags_of(alloc: Global, tokens: &Tokens<'_>) -> Result<Vec<u32>, NoMemory> {
    let mut names = Vec::new(alloc);
    for at in 1..tokens.len() {
        if is_tag_word(tokens.kind(at.saturating_sub(1)))
            && names.len() < MOST
            && let Some(tag) = declared(tokens, names.as_slice(), at)
        {
            names.push(tag)?;
        }
    }
    Ok(names)
}
