// The tokens of a text, with a number for each spelling.
ghost use Rattle.std.specs.Prelude.{◌≡◌, slice_get, length, drop, IfOk};
ghost use Rattle.c_lex.specs.TokenText.{text_at, line_at};
ghost use Rattle.typing_env.specs.Env.{symbol_in, line_in, last_line};
ghost use Rattle.type_scope.specs.Strings.{is_string, strings_of};
ghost use Rattle.type_scope.specs.declared.fault.TypeFault.TheVariants as fault;

use crate::TypeFault;
use c_lex::{TokenKind, Tokens};
use c_spelling::spelled_by;
use std::alloc::Global;
use std::marker::Model;
use type_reasons::Reason;
use ub_base::NoMemory;

/// The tokens, and the symbol of each: the number of the first token that is spelled so.
#[derive(Drop)]
pub struct Source<'a> {
    tokens: &'a Tokens<'a>,
    symbols: Vec<u32>,
}

impl<'a> Model for Source<'a> {
    ghost use Rattle.c_lex.specs.TokenText.{TokenText};
    ghost use Rattle.c_spelling.specs.Spelling.{IsSpelling};

    ghost Value = { TokenText };

    ghost view = { λ s. s.tokens.now };

    ghost invariant = { λ s. IsSpelling s.tokens.now s.symbols.items };
}

fn spelling<'a>(tokens: &Tokens<'a>, at: u32) -> &'a [u8]
    ensures { result.now ≡ text_at tokens.now at }
{
    if at < tokens.len() {
        tokens.text(at)
    } else {
        &[]
    }
}

fn is_string(kind: Option<TokenKind>) -> bool
    ensures { result ≡ is_string kind }
{
    matches!(kind, Some(TokenKind::StringLit))
}

#[tactic(auto, using(crate::proofs::Strings::strings_step))]
fn strings_from(tokens: &Tokens<'_>, first: u32) -> u32
    ensures { result ≡ strings_of (drop first tokens.now.list) }
{
    let mut count: u32 = 0;
    for at in first..tokens.len() {
        if !is_string(tokens.kind(at)) {
            return count;
        }
        count = count.saturating_add(1);
    }
    count
}

fn number_at(numbers: &[u32], at: u32) -> Option<u32>
    ensures { result ≡ slice_get numbers.now at }
{
    numbers.get(at as usize).copied()
}

impl<'a> Source<'a> {
    /// The tokens with their symbols.
    pub fn new(alloc: Global, tokens: &'a Tokens<'a>) -> Result<Source<'a>, NoMemory>
        ensures { IfOk result (λ s. s ≡ tokens.now) }
    {
        Ok(Source {
            tokens,
            symbols: spelled_by(alloc, tokens)?,
        })
    }

    /// How many tokens there are: a number above all their symbols.
    pub fn symbol_count(&self) -> usize
        ensures { result ≡ length self.now.list }
    {
        self.symbols.len()
    }

    /// The symbol of the token of this number; behind the last token a number of its own.
    #[tactic(auto, using(crate::proofs::Symbols::symbol_found, crate::proofs::Symbols::symbol_none))]
    pub fn symbol(&self, at: u32) -> u32
        ensures { result ≡ symbol_in self.now (slice_get self.now.list at) }
    {
        match number_at(&self.symbols, at) {
            Some(symbol) => symbol,
            None => self.tokens.len(),
        }
    }

    /// The line of the token; behind the last token that of the last one, and 1 where there is none.
    pub fn line(&self, at: u32) -> u32
        ensures { result ≡ line_in self.now.list (line_at self.now at) }
    {
        match self.tokens.line(at) {
            Some(line) => line,
            None => self.last_line(),
        }
    }

    /// The line of the last token, 1 where there is none.
    #[tactic(auto, using(crate::proofs::Symbols::last_is))]
    pub fn last_line(&self) -> u32
        ensures { result ≡ last_line 1 self.now.list }
    {
        let last = self.tokens.len().saturating_sub(1);
        self.tokens.line(last).unwrap_or(1)
    }

    /// The spelling of the token.
    pub fn spelling(&self, at: u32) -> &'a [u8]
        ensures { result.now ≡ text_at self.now at }
    {
        spelling(self.tokens, at)
    }

    /// How many string literals stand one after the other from this token on.
    pub fn string_count(&self, first: u32) -> u32
        ensures { result ≡ strings_of (drop first self.now.list) }
    {
        strings_from(self.tokens, first)
    }

    /// The fault of a unit that breaks a rule at this token, for this reason.
    pub fn fault(&self, at: u32, reason: Reason) -> TypeFault
        ensures { result ≡ fault.NotTyped (line_in self.now.list (line_at self.now at)) reason }
    {
        TypeFault::NotTyped {
            line: self.line(at),
            reason,
        }
    }
}
