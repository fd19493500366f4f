// Which token a spelling is.
ghost use Rattle.std.specs.Prelude.{◌≡◌, ◌≢◌, ◌+◌, ◌<◌, ◌≤◌, ℕ, length, take, drop, IfSome, IfNone, decimal};
ghost use Rattle.std.specs.List.{prefix_len};
ghost use Rattle.first_form.specs.Bytes.{is_white, is_name_byte, is_number_byte, run_of};
ghost use Rattle.first_form.specs.Tokens.{word_text, mark_text, IsConstant, IsSpelling, IsToken, goes_on};
ghost use Rattle.first_form.specs.declared.token.TokenKind.{TokenKind};
ghost use Rattle.first_form.specs.declared.token.Mark.{Mark};

use crate::token::{Mark, TokenKind, Word};
use itoa::Buffer;

const MAX_INT: u32 = 2147483647;

pub fn is_white(b: u8) -> bool
    ensures { result ≡ is_white b }
{
    b == b' ' || (9..=13).contains(&b)
}

pub fn is_name_byte(b: u8) -> bool
    ensures { result ≡ is_name_byte b }
{
    b.is_ascii_alphanumeric() || b == b'_'
}

pub fn is_number_byte(b: u8) -> bool
    ensures { result ≡ is_number_byte b }
{
    is_name_byte(b) || b == b'.'
}

/// The number that a decimal constant of an int spells.
pub fn constant(text: &[u8]) -> Option<u32>
    ensures found { IfSome result (λ n. IsConstant text.now n) }
    ensures none { IfNone result ((n : ℕ) → IsConstant text.now n → ⊥) }
{
    let Ok(digits) = std::str::from_utf8(text) else {
        return None;
    };
    let Ok(n) = digits.parse::<u32>() else {
        return None;
    };
    let mut buffer = Buffer::new();
    if n <= MAX_INT && buffer.format(n).as_bytes() == text {
        Some(n)
    } else {
        None
    }
}

pub fn mark_of(text: &[u8]) -> Option<Mark>
    ensures found { IfSome result (λ mark. text.now ≡ mark_text mark) }
    ensures none { IfNone result ((mark : Mark) → text.now ≢ mark_text mark) }
{
    match text {
        b"(" => Some(Mark::OpenParen),
        b")" => Some(Mark::CloseParen),
        b"{" => Some(Mark::OpenBrace),
        b"}" => Some(Mark::CloseBrace),
        b";" => Some(Mark::Semicolon),
        b"+" => Some(Mark::Plus),
        b"-" => Some(Mark::Minus),
        b"*" => Some(Mark::Star),
        b"/" => Some(Mark::Slash),
        b"%" => Some(Mark::Percent),
        _ => None,
    }
}

/// The kind of a spelling.
pub fn kind_of(text: &[u8]) -> Option<TokenKind>
    ensures found { IfSome result (λ kind. IsSpelling kind text.now) }
    ensures none { IfNone result ((kind : TokenKind) → IsSpelling kind text.now → ⊥) }
{
    match text {
        b"main" => Some(TokenKind::Name),
        b"int" => Some(TokenKind::Keyword(Word::Int)),
        b"void" => Some(TokenKind::Keyword(Word::Void)),
        b"return" => Some(TokenKind::Keyword(Word::Return)),
        _ => {
            if constant(text).is_some() {
                return Some(TokenKind::Number);
            }
            Some(TokenKind::Punct(mark_of(text)?))
        }
    }
}

/// How many bytes go on with a token that begins with this one.
pub fn run_len(first: u8, rest: &[u8]) -> usize
    ensures run { result ≡ prefix_len (run_of first) rest.now }
    ensures within { result ≤ length rest.now }
{
    if first.is_ascii_digit() {
        rest.iter().take_while(|b| is_number_byte(**b)).count()
    } else if is_name_byte(first) {
        rest.iter().take_while(|b| is_name_byte(**b)).count()
    } else {
        0
    }
}
