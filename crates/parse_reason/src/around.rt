// What stands around a token.

use c_lex::{Mark, TokenKind, Tokens, Word};

/// How the token is spelled; nothing behind the last one.
pub fn spelling<'a>(tokens: &Tokens<'a>, at: u32) -> &'a [u8] {
    if at < tokens.len() {
        tokens.text(at)
    } else {
        b""
    }
}

/// The kind of the token so many before this one.
pub fn kind_before(tokens: &Tokens<'_>, at: u32, back: u32) -> Option<TokenKind> {
    if at < back {
        None
    } else {
        tokens.kind(at.saturating_sub(back))
    }
}

/// Whether it is this mark.
pub fn is_mark(kind: Option<TokenKind>, mark: Mark) -> bool {
    kind == Some(TokenKind::Punct(mark))
}

/// Whether it is this keyword.
pub fn is_word(kind: Option<TokenKind>, word: Word) -> bool {
    kind == Some(TokenKind::Keyword(word))
}

/// Whether it is a name.
pub fn is_name(kind: Option<TokenKind>) -> bool {
    kind == Some(TokenKind::Name)
}

/// Whether a value may end with it.
pub fn ends_value(kind: Option<TokenKind>) -> bool {
    matches!(
        kind,
        Some(
            TokenKind::Name
                | TokenKind::Number
                | TokenKind::CharLit
                | TokenKind::StringLit
                | TokenKind::Punct(Mark::CloseParen | Mark::CloseBracket)
        )
    )
}

/// Whether what stands in parentheses behind it is neither a type nor an operand: the arguments of a call, or the head of a
/// statement.
pub fn takes_parentheses(kind: Option<TokenKind>) -> bool {
    ends_value(kind)
        || matches!(
            kind,
            Some(TokenKind::Keyword(
                Word::If
                    | Word::While
                    | Word::For
                    | Word::Switch
                    | Word::Sizeof
                    | Word::Alignof
                    | Word::StaticAssert
            ))
        )
}

/// Whether a type may begin with this keyword.
pub fn begins_type(kind: Option<TokenKind>) -> bool {
    matches!(
        kind,
        Some(TokenKind::Keyword(
            Word::Char
                | Word::Const
                | Word::Enum
                | Word::Int
                | Word::Long
                | Word::Short
                | Word::Signed
                | Word::Struct
                | Word::Union
                | Word::Unsigned
                | Word::Void
                | Word::Boolean
        ))
    )
}

/// Whether specifiers may stand behind this keyword, and it is no type.
pub fn goes_before_type(kind: Option<TokenKind>) -> bool {
    matches!(
        kind,
        Some(TokenKind::Keyword(
            Word::Static
                | Word::Extern
                | Word::Typedef
                | Word::Register
                | Word::Auto
                | Word::Inline
                | Word::Noreturn
                | Word::Const
                | Word::Restrict
        ))
    )
}
