// The tokens of a text.
ghost use Rattle.std.specs.Prelude.{◌≡◌, ◌≤◌, ◌+◌, ◌^◌, length, drop, IfOk, IsErrOf, List, MatchResult, ◌⊎◌, count_by, ◌==◌};
ghost use Rattle.std.specs.List.{prefix_len};
ghost use Rattle.first_form.specs.Bytes.{is_white};
ghost use Rattle.first_form.specs.Tokens.{Lexes, GivesNext, HasOnly};
ghost use Rattle.first_form.specs.declared.token.Token.{Token};

use crate::fault::FormFault;
use crate::spell::{is_white, kind_of, run_len};
use crate::token::{Token, Tokens};
use std::alloc::Global;

// How much white space stands in front.
fn white_len(rest: &[u8]) -> usize
    ensures run { result ≡ prefix_len is_white rest.now }
    ensures within { result ≤ length rest.now }
{
    rest.iter().take_while(|b| is_white(**b)).count()
}

// How many lines end in these bytes.
fn line_count(bytes: &[u8]) -> usize
    ensures count { result ≡ count_by (λ b. b == 10) bytes.now }
    ensures within { result ≤ length bytes.now }
{
    bytes.iter().filter(|b| **b == b'\n').count()
}

// The next token of what is left of a text, behind white space, or none at the end.
fn next_token(rest: &[u8], at: usize, line: u32) -> Result<Option<Token>, FormFault>
    requires small { at + length rest.now ≤ 2 ^ 20 }
    requires few_lines { line ≤ at + 1 }
    ensures { GivesNext at line rest.now result }
{
    let blank = white_len(rest);
    let (white, behind) = rest.split_at(blank);
    let lines = line_count(white);
    let Some((first, tail)) = behind.split_first() else {
        return Ok(None);
    };
    let len = 1 + run_len(*first, tail);
    let (spelling, _) = behind.split_at(len);
    let Some(kind) = kind_of(spelling) else {
        return Err(FormFault::NotFirstForm);
    };
    let start = at + blank;
    Ok(Some(Token {
        kind,
        start: start as u32,
        end: (start + len) as u32,
        line: line + lines as u32,
    }))
}

/// The tokens that a text is the spellings of.
pub fn lex<'a>(alloc: Global, src: &'a [u8]) -> Result<Tokens<'a>, FormFault>
    requires { length src.now ≤ 2 ^ 20 }
    ensures text { IfOk result (λ tokens. tokens.text.now ≡ src.now) }
    ensures found { IfOk result (λ tokens. Lexes src.now tokens.list.items) }
    // It has no other tokens, and is refused only where it has none.
    ensures only { (tokens : List Token) → Lexes src.now tokens → HasOnly tokens result }
{
    let mut list = Vec::new(alloc);
    let mut at = 0;
    let mut line = 1;
    while let Some(token) = next_token(&src[at..], at, line)? {
        list.push(token)?;
        at = token.end as usize;
        line = token.line;
    }
    Ok(Tokens { text: src, list })
}
