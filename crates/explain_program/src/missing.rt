// Which token would let a text go on.

use c_lex::{LexFault, Tokens, lex};
use c_parse::{ParseFault, parse};
use parse_reason::Missing;
use std::alloc::Global;
use ub_base::{Bytes, NoMemory};

const TRIALS: [Missing; 5] = [
    Missing::Semicolon,
    Missing::Comma,
    Missing::CloseParen,
    Missing::CloseBracket,
    Missing::CloseBrace,
];

fn byte_of(missing: Missing) -> u8 {
    match missing {
        Missing::Semicolon => b';',
        Missing::Comma => b',',
        Missing::CloseParen => b')',
        Missing::CloseBracket => b']',
        Missing::CloseBrace => b'}',
    }
}

// The tokens, each in a line of its own, with one more before this one.
fn with_token(
    alloc: Global,
    tokens: &Tokens<'_>,
    before: u32,
    more: u8,
) -> Result<Bytes, NoMemory> {
    let mut text = Bytes::from_vec(Vec::new(alloc));
    for at in 0..tokens.len() {
        if at == before {
            text.push(more)?;
            text.push(b'\n')?;
        }
        text.append(tokens.text(at))?;
        text.push(b'\n')?;
    }
    if before >= tokens.len() {
        text.push(more)?;
    }
    Ok(text)
}

const MOST: usize = 1_048_576;

// How far a text is read: the first token with which no text goes on; none where it is read whole, or isn't read at all.
#[derive(Clone, Copy, PartialEq, Eq)]
enum Reading {
    Whole,
    UpTo(u32),
    Not,
}

fn reading_of(alloc: Global, text: &[u8]) -> Result<Reading, NoMemory> {
    if text.len() > MOST {
        return Ok(Reading::Not);
    }
    let tokens = match lex(alloc, text) {
        Ok(tokens) => tokens,
        Err(LexFault::NoMemory) => return Err(NoMemory),
        Err(_) => return Ok(Reading::Not),
    };
    match parse(alloc, &tokens) {
        Ok(_) => Ok(Reading::Whole),
        Err(ParseFault::Syntax(token)) => Ok(Reading::UpTo(token)),
        Err(ParseFault::TooDeep(_)) => Ok(Reading::Not),
        Err(ParseFault::NoMemory) => Err(NoMemory),
    }
}

/// Whether the text goes on behind the refused token, with this one before it, or at the end.
pub fn goes_on(
    alloc: Global,
    tokens: &Tokens<'_>,
    refused: u32,
    missing: Missing,
) -> Result<bool, NoMemory> {
    let text = with_token(alloc, tokens, refused, byte_of(missing))?;
    Ok(match reading_of(alloc, text.as_slice())? {
        Reading::Whole => true,
        Reading::UpTo(token) => token > refused.saturating_add(1),
        Reading::Not => false,
    })
}

/// Which of `; , ) ] }` before a refused token would let the text go on.
pub fn missing_before(
    alloc: Global,
    tokens: &Tokens<'_>,
    refused: u32,
) -> Result<Option<Missing>, NoMemory> {
    for missing in TRIALS.iter() {
        if goes_on(alloc, tokens, refused, *missing)? {
            return Ok(Some(*missing));
        }
    }
    Ok(None)
}
