// The tokens of the first form (6.4).

/// A keyword.
#[derive(Clone, Copy, PartialEq, Eq)]
pub enum Word {
    Int,
    Void,
    Return,
}

/// A punctuator.
#[derive(Clone, Copy, PartialEq, Eq)]
pub enum Mark {
    OpenParen,
    CloseParen,
    OpenBrace,
    CloseBrace,
    Semicolon,
    Plus,
    Minus,
    Star,
    Slash,
    Percent,
}

#[derive(Clone, Copy, PartialEq, Eq)]
pub enum TokenKind {
    Name,
    Keyword(Word),
    Number,
    Punct(Mark),
}

/// A token, where it stands in the text, and on which line.
#[derive(Clone, Copy, PartialEq, Eq)]
pub struct Token {
    pub kind: TokenKind,
    pub start: u32,
    pub end: u32,
    pub line: u32,
}

/// The tokens of a text.
#[derive(Drop)]
pub struct Tokens<'a> {
    pub text: &'a [u8],
    pub list: Vec<Token>,
}
