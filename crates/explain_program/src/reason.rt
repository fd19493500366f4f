// Why no program goes on with a token, where it takes a reading to tell.

use crate::missing::{goes_on, missing_before};
use c_lex::Tokens;
use explain_places::open_before;
use parse_reason::{Missing, Reason, told};
use std::alloc::Global;
use ub_base::NoMemory;

// The reason of the end.
fn end_reason(alloc: Global, tokens: &Tokens<'_>) -> Result<Reason, NoMemory> {
    let end = tokens.len();
    if let Some(open) = open_before(tokens, end) {
        return Ok(Reason::Unclosed(open));
    }
    if goes_on(alloc, tokens, end, Missing::Semicolon)? {
        return Ok(Reason::Missing(Missing::Semicolon));
    }
    Ok(Reason::Ended)
}

/// Why no program goes on with this token, which a parse of the tokens has refused; their count stands for the end.
pub fn reason_of(alloc: Global, tokens: &Tokens<'_>, refused: u32) -> Result<Reason, NoMemory> {
    if refused >= tokens.len() {
        return end_reason(alloc, tokens);
    }
    if let Some(reason) = told(tokens, refused) {
        return Ok(reason);
    }
    Ok(match missing_before(alloc, tokens, refused)? {
        Some(missing) => Reason::Missing(missing),
        None => Reason::Unexpected,
    })
}
