// From bytes to a program.
ghost use Rattle.std.specs.Prelude.{◌≡◌, ◌≤◌, ◌^◌, length, Ok, IfErr, IfOk, OnOk};
ghost use Rattle.audit_verdict.specs.Answer.{HasTree, IsRunnable, IsTyped, lex_refusal};
ghost use Rattle.audit_verdict.specs.Front.{WhyRefused};
ghost use Rattle.c_lex.specs.Tokens.{lexed};

use crate::answer::Refusal;
use c_ast::Unit;
use c_lex::{LexFault, Tokens, lex};
use c_parse::{ParseFault, parse};
use c_resolve::{TypeFault, resolve};
use c_typed::{Program, height};
use std::alloc::Global;

const MAX_HEIGHT: u32 = 1000;

/// Why a text has no program.
#[derive(Clone, Copy)]
pub enum FrontFault {
    Refused(Refusal),
    NoMemory,
}

// What a fault of the lexer refuses.
fn lex_refusal(fault: LexFault) -> Option<Refusal>
    ensures { result ≡ lex_refusal fault }
{
    match fault {
        LexFault::Stray(at) => Some(Refusal::Stray(at)),
        LexFault::OpenLiteral(at) => Some(Refusal::OpenLiteral(at)),
        LexFault::BadNumber(at) => Some(Refusal::BadNumber(at)),
        LexFault::NoMemory => None,
    }
}

// The tokens of a text.
fn tokens_of<'a>(alloc: Global, text: &'a [u8]) -> Result<Tokens<'a>, FrontFault>
    requires { length text.now ≤ 2 ^ 20 }
    ensures source { IfOk result (λ tokens. tokens.source ≡ text.now) }
    ensures found { IfOk result (λ tokens. lexed text.now ≡ Ok tokens.list) }
    ensures refused { IfErr result (WhyRefused text.now) }
{
    match lex(alloc, text) {
        Ok(tokens) => Ok(tokens),
        Err(fault) => match lex_refusal(fault) {
            Some(refusal) => Err(FrontFault::Refused(refusal)),
            None => Err(FrontFault::NoMemory),
        },
    }
}

// The line of a token; behind the last token, its line; 1 where there is no token.
fn line_of(tokens: &Tokens<'_>, token: u32) -> u32 {
    match tokens.line(token) {
        Some(line) => line,
        None => tokens.line(tokens.len().saturating_sub(1)).unwrap_or(1),
    }
}

// The syntax tree that the tokens of a text spell.
fn unit_of(alloc: Global, tokens: &Tokens<'_>) -> Result<Unit, FrontFault>
    requires { lexed tokens.now.source ≡ Ok tokens.now.list }
    ensures read { OnOk result (HasTree tokens.now.source) }
    ensures refused { IfErr result (WhyRefused tokens.now.source) }
{
    match parse(alloc, tokens) {
        Ok(unit) => Ok(unit),
        Err(ParseFault::TooDeep(count)) => Err(FrontFault::Refused(Refusal::TooDeep(count))),
        Err(ParseFault::Syntax(token)) => {
            let line = line_of(tokens, token);
            Err(FrontFault::Refused(Refusal::Syntax { token, line }))
        }
        Err(ParseFault::NoMemory) => Err(FrontFault::NoMemory),
    }
}

// The program of a syntax tree that the tokens of a text spell.
fn typed(alloc: Global, tokens: &Tokens<'_>, unit: &Unit) -> Result<Program, FrontFault>
    requires { HasTree tokens.now.source }
    ensures read { IfOk result (IsTyped tokens.now.source) }
    ensures refused { IfErr result (WhyRefused tokens.now.source) }
{
    match resolve(alloc, tokens, unit) {
        Ok(program) => Ok(program),
        Err(TypeFault::NotTyped { line, reason: _ }) => Err(FrontFault::Refused(Refusal::NotTyped(
            line,
        ))),
        Err(TypeFault::NoMemory) => Err(FrontFault::NoMemory),
    }
}

/// The program of a text, whose tree is at most 1,000 high.
pub fn program_of(alloc: Global, text: &[u8]) -> Result<Program, FrontFault>
    requires { length text.now ≤ 2 ^ 20 }
    ensures read { IfOk result (IsRunnable text.now) }
    ensures refused { IfErr result (WhyRefused text.now) }
{
    let tokens = tokens_of(alloc, text)?;
    let unit = unit_of(alloc, &tokens)?;
    let program = typed(alloc, &tokens, &unit)?;
    let height = height(&program);
    if height > MAX_HEIGHT {
        return Err(FrontFault::Refused(Refusal::TooHigh(height)));
    }
    Ok(program)
}
