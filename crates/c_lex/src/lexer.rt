// The tokens of a text.
ghost use Rattle.std.specs.Prelude.{◌≡◌, ◌≢◌, ◌≤◌, ◌<◌, ◌+◌, ◌^◌, ◌++◌, length, take, Ok, Err, IfOk, IfErr, OnOk, IsErrOf, count_by, ◌==◌};
ghost use Rattle.c_lex.specs.Pieces.{len_of};
ghost use Rattle.c_lex.specs.TokenText.{AreSpans};
ghost use Rattle.c_lex.specs.Tokens.{lexed, tokens_of, line_after, fault_of};
ghost use Rattle.c_lex.specs.declared.token.LexFault.{LexFault};

use crate::piece::{Piece, Wrong, piece_of};
use crate::{LexFault, Token, Tokens};
use std::alloc::Global;

// How many lines end in these bytes.
fn line_count(bytes: &[u8]) -> usize
    ensures count { result ≡ count_by (λ b. b == 10) bytes.now }
    ensures within { result ≤ length bytes.now }
{
    bytes.iter().filter(|b| **b == b'\n').count()
}

fn fault_of(wrong: Wrong, at: usize) -> LexFault
    requires { at < 2 ^ 32 }
    ensures value { result ≡ fault_of wrong at }
    ensures other { result ≢ LexFault.NoMemory }
{
    match wrong {
        Wrong::Stray => LexFault::Stray(at as u32),
        Wrong::OpenLiteral => LexFault::OpenLiteral(at as u32),
        Wrong::BadNumber => LexFault::BadNumber(at as u32),
    }
}

// The line behind a piece.
fn line_after(piece: Piece, line: u32, rest: &[u8]) -> u32
    requires few { line < 2 ^ 31 + 2 ^ 21 }
    requires small { length rest.now ≤ 2 ^ 20 }
    requires inside { len_of piece ≤ length rest.now }
    ensures { result ≡ line_after piece line rest.now }
{
    match piece {
        Piece::Blank(_) => line,
        Piece::LineEnd => line + 1,
        Piece::Passed(len) => {
            let (passed, _) = rest.split_at(len);
            line + line_count(passed) as u32
        }
        Piece::Marker(number, _) => number,
        Piece::Spelled(_, _) => line,
    }
}

// Adds the token that a piece is.
fn keep(list: &mut Vec<Token>, piece: Piece, at: usize, line: u32) -> Result<(), LexFault>
    requires { at + len_of piece < 2 ^ 32 }
    ensures ok { OnOk result (list.new.items ≡ list.old.items ++ tokens_of piece at line) }
    ensures err { IfErr result (λ fault. fault ≡ LexFault.NoMemory) }
{
    match piece {
        Piece::Spelled(kind, len) => {
            list.push(Token {
                kind,
                start: at as u32,
                end: (at + len) as u32,
                line,
            })?;
            Ok(())
        }
        Piece::Blank(_) => Ok(()),
        Piece::LineEnd => Ok(()),
        Piece::Passed(_) => Ok(()),
        Piece::Marker(_, _) => Ok(()),
    }
}

/// The tokens of a text (6.4), or its first piece that is none.
pub fn lex<'a>(alloc: Global, src: &'a [u8]) -> Result<Tokens<'a>, LexFault>
    requires { length src.now ≤ 2 ^ 20 }
    ensures source { IfOk result (λ tokens. tokens.source ≡ src.now) }
    ensures found { IfOk result (λ tokens. lexed src.now ≡ Ok tokens.list) }
    ensures spans { IfOk result (λ tokens. AreSpans src.now tokens.list) }
    ensures fault { IfErr result (λ fault. fault ≢ LexFault.NoMemory → lexed src.now ≡ Err fault) }
{
    let mut list = Vec::new(alloc);
    let mut at = 0;
    let mut line = 1;
    let mut fresh = true;
    while at < src.len() {
        let (_, rest) = src.split_at(at);
        let Some((first, tail)) = rest.split_first() else {
            break;
        };
        let piece = match piece_of(rest, *first, tail, fresh) {
            Ok(piece) => piece,
            Err(wrong) => return Err(fault_of(wrong, at)),
        };
        keep(&mut list, piece, at, line)?;
        line = line_after(piece, line, rest);
        fresh = piece.fresh_after(fresh);
        at += piece.len();
    }
    Ok(Tokens::new(src, list))
}
