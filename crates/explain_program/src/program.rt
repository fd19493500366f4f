// The program of a text whose lines are the numbers of tokens.
ghost use Rattle.std.specs.Prelude.{◌≤◌, ◌^◌, length};

use crate::reason::reason_of;
use c_ast::Unit;
use c_lex::{LexFault, Tokens, lex};
use c_parse::{ParseFault, parse};
use c_resolve::{TypeFault, resolve};
use c_typed::{Program, height};
use explain_places::{one_a_line, token_of};
use explain_refusal::Refused;
use std::alloc::Global;
use ub_base::NoMemory;

fn lex_refusal(fault: LexFault) -> Refused {
    match fault {
        LexFault::Stray(at) => Refused::Stray(at),
        LexFault::OpenLiteral(at) => Refused::OpenLiteral(at),
        LexFault::BadNumber(at) => Refused::BadNumber(at),
        LexFault::NoMemory => Refused::NoMemory,
    }
}

/// The tokens of a text.
pub fn tokens_of<'a>(alloc: Global, text: &'a [u8]) -> Result<Tokens<'a>, Refused>
    requires { length text.now ≤ 2 ^ 20 }
{
    match lex(alloc, text) {
        Ok(tokens) => Ok(tokens),
        Err(fault) => Err(lex_refusal(fault)),
    }
}

const MOST: usize = 1_048_576;

// Why tokens that a parse has refused at this one spell no program.
fn unspelled(alloc: Global, tokens: &Tokens<'_>, token: u32) -> Refused {
    match reason_of(alloc, tokens, token) {
        Ok(reason) => Refused::Syntax(token, reason),
        Err(NoMemory) => Refused::NoMemory,
    }
}

fn typed(alloc: Global, tokens: &Tokens<'_>, unit: &Unit) -> Result<Program, Refused> {
    match resolve(alloc, tokens, unit) {
        Ok(program) => Ok(program),
        Err(TypeFault::NotTyped { line, reason }) => Err(Refused::NotTyped(token_of(line), reason)),
        Err(TypeFault::NoMemory) => Err(Refused::NoMemory),
    }
}

// The program of a text with a token a line, whose tokens stand in another text.
fn typed_of(alloc: Global, text: &[u8], tokens: &Tokens<'_>) -> Result<Program, Refused> {
    if text.len() > MOST {
        return Err(Refused::TooDeep);
    }
    let lines = tokens_of(alloc, text)?;
    match parse(alloc, &lines) {
        Ok(unit) => typed(alloc, &lines, &unit),
        Err(ParseFault::TooDeep(_)) => Err(Refused::TooDeep),
        Err(ParseFault::Syntax(token)) => Err(unspelled(alloc, tokens, token)),
        Err(ParseFault::NoMemory) => Err(Refused::NoMemory),
    }
}

const MAX_HEIGHT: u32 = 1000;

/// The program of these tokens. Its lines are the numbers of tokens, and one more.
pub fn program_of(alloc: Global, tokens: &Tokens<'_>) -> Result<Program, Refused> {
    let text = one_a_line(alloc, tokens)?;
    let program = typed_of(alloc, text.as_slice(), tokens)?;
    if height(&program) > MAX_HEIGHT {
        return Err(Refused::TooDeep);
    }
    Ok(program)
}
