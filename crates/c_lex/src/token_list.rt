// A text with its tokens.
ghost use Rattle.std.specs.Prelude.{◌≡◌, ◌≤◌, ◌<◌, ◌^◌, ◌↔◌, [], length, slice_get, slice_range, IsTrue};

use crate::{Token, TokenKind};
use std::marker::Model;

/// The tokens of a source text of at most 2^20 bytes, in order, with the text. Tokens are numbered from 0.
#[derive(Debug, Drop)]
pub struct Tokens<'a> {
    source: &'a [u8],
    list: Vec<Token>,
}

fn part(text: &[u8], start: usize, end: usize) -> &[u8]
    requires order { start ≤ end }
    requires within { end ≤ length text.now }
    ensures { result.now ≡ slice_range text.now start end }
{
    &text[start..end]
}

impl<'a> Model for Tokens<'a> {
    ghost use Rattle.c_lex.specs.TokenText.{TokenText, AreSpans};

    ghost Value = { TokenText };

    ghost view = { λ t. record { source = t.source.now; list = t.list.items } };

    ghost invariant = { λ t. AreSpans t.source.now t.list.items };
}

impl<'a> Tokens<'a> {
    ghost use Rattle.c_lex.specs.TokenText.{AreSpans, kind_at, line_at, text_at};

    /// These tokens of this text.
    pub(crate) fn new(source: &'a [u8], list: Vec<Token>) -> Self
        requires { AreSpans source.now list.items }
        ensures source { result.source ≡ source.now }
        ensures list { result.list ≡ list.items }
    {
        Tokens { source, list }
    }

    /// How many tokens there are.
    pub fn len(&self) -> u32
        ensures count { result ≡ length self.now.list }
        ensures few { result ≤ 2 ^ 20 }
    {
        self.list.len() as u32
    }

    /// Whether there is no token.
    pub fn is_empty(&self) -> bool
        ensures { IsTrue result ↔ (self.now.list ≡ []) }
    {
        self.list.is_empty()
    }

    /// The token of this number, if there is one.
    pub fn get(&self, at: u32) -> Option<Token>
        ensures { result ≡ slice_get self.now.list at }
    {
        self.list.get(at as usize).copied()
    }

    /// The kind of the token of this number, if there is one.
    pub fn kind(&self, at: u32) -> Option<TokenKind>
        ensures { result ≡ kind_at self.now at }
    {
        match self.list.get(at as usize) {
            Some(token) => Some(token.kind),
            None => None,
        }
    }

    /// The line of the token of this number, if there is one.
    pub fn line(&self, at: u32) -> Option<u32>
        ensures { result ≡ line_at self.now at }
    {
        match self.list.get(at as usize) {
            Some(token) => Some(token.line),
            None => None,
        }
    }

    /// How the token of this number is spelled.
    pub fn text(&self, at: u32) -> &'a [u8]
        requires { at < length self.now.list }
        ensures { result.now ≡ text_at self.now at }
    {
        let token = self.list[at as usize];
        part(self.source, token.start as usize, token.end as usize)
    }

    /// The text.
    pub fn source(&self) -> &'a [u8]
        ensures { result.now ≡ self.now.source }
    {
        self.source
    }
}
