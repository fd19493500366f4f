// Tokens, and why a text has none.
ghost use Rattle.std.specs.Prelude.{◌≡◌};

use std::alloc::AllocFailed;

/// A keyword of ISO/IEC 9899:2011, 6.4.1. `Boolean` is `_Bool`; the other words with an underscore
/// have their name without it.
#[derive(Clone, Copy, Debug, PartialEq, Eq)]
pub enum Word {
    Auto,
    Break,
    Case,
    Char,
    Const,
    Continue,
    Default,
    Do,
    Double,
    Else,
    Enum,
    Extern,
    Float,
    For,
    Goto,
    If,
    Inline,
    Int,
    Long,
    Register,
    Restrict,
    Return,
    Short,
    Signed,
    Sizeof,
    Static,
    Struct,
    Switch,
    Typedef,
    Union,
    Unsigned,
    Void,
    Volatile,
    While,
    Alignas,
    Alignof,
    Atomic,
    Boolean,
    Complex,
    Generic,
    Imaginary,
    Noreturn,
    StaticAssert,
    ThreadLocal,
}

/// A punctuator (6.4.6). A digraph has the variant of the mark that it spells.
#[derive(Clone, Copy, Debug, PartialEq, Eq)]
pub enum Mark {
    OpenBracket,
    CloseBracket,
    OpenParen,
    CloseParen,
    OpenBrace,
    CloseBrace,
    Dot,
    Arrow,
    PlusPlus,
    MinusMinus,
    Ampersand,
    Star,
    Plus,
    Minus,
    Tilde,
    Bang,
    Slash,
    Percent,
    ShiftLeft,
    ShiftRight,
    Less,
    Greater,
    LessEqual,
    GreaterEqual,
    EqualEqual,
    BangEqual,
    Caret,
    Bar,
    AndAnd,
    OrOr,
    Question,
    Colon,
    Semicolon,
    Ellipsis,
    Equal,
    StarEqual,
    SlashEqual,
    PercentEqual,
    PlusEqual,
    MinusEqual,
    ShiftLeftEqual,
    ShiftRightEqual,
    AmpersandEqual,
    CaretEqual,
    BarEqual,
    Comma,
}

/// What a token is (6.4). A `Name` is an identifier that is no keyword, a `Number` an integer constant,
/// a `CharLit` a character constant without prefix, a `StringLit` a string literal without prefix.
#[derive(Clone, Copy, Debug, PartialEq, Eq)]
pub enum TokenKind {
    Name,
    Keyword(Word),
    Number,
    CharLit,
    StringLit,
    Punct(Mark),
}

/// A token: its kind, the bytes of the text from `start` up to but without `end`, and the line that it
/// begins on, as the line markers number the lines.
#[derive(Clone, Copy, Debug, PartialEq, Eq)]
pub struct Token {
    pub kind: TokenKind,
    pub start: u32,
    pub end: u32,
    pub line: u32,
}

/// Why a text has no tokens. Each number is the offset of the first byte of the first piece of the text
/// that is neither white space, a comment, a directive nor a token.
#[derive(Clone, Copy, Debug, PartialEq, Eq)]
pub enum LexFault {
    /// A byte that begins no token, a `#` that begins no line marker and no `#pragma`, or the prefix of
    /// a wide or Unicode literal.
    Stray(u32),
    /// A literal whose quote, or a comment whose end, is missing.
    OpenLiteral(u32),
    /// A preprocessing number that is no integer constant (6.4.8, 6.4.4.1).
    BadNumber(u32),
    /// Memory ran out.
    NoMemory,
}

impl<T: Drop> From<AllocFailed<T>> for LexFault {
    ghost use Rattle.c_lex.specs.declared.token.LexFault.TheVariants.{NoMemory};

    ghost from_gives = { λ _ e. e ≡ NoMemory };

    fn from(_e: AllocFailed<T>) -> LexFault {
        LexFault::NoMemory
    }
}
