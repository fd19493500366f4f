// Integer constants (6.4.4.1): their form.
ghost use Rattle.std.specs.Prelude.{◌≡◌, ◌≤◌, ◌<◌, ◌==◌, length, take, drop, Some, None, MatchOption, IfSome};
ghost use Rattle.std.specs.List.{prefix_len};
ghost use Rattle.std.specs.Char.{digit_value, is_digit};
ghost use Rattle.c_lex.specs.Integers.{suffix_of, with_suffix, digits_of, is_hexadecimal, integer_of, is_integer};

use crate::bytes::begins_with;

/// An integer-suffix, in any order and case of its letters; `Plain` is none.
#[derive(Clone, Copy, Debug, PartialEq, Eq)]
pub enum Suffix {
    Plain,
    Unsigned,
    Long,
    UnsignedLong,
    LongLong,
    UnsignedLongLong,
}

/// An integer constant: its digits without `0x`, the radix in which they count, and its suffix.
#[derive(Clone, Copy, Debug)]
pub struct IntegerParts<'a> {
    pub radix: u64,
    pub digits: &'a [u8],
    pub suffix: Suffix,
}

/// What a digit or letter counts in a radix up to 36; 36 for every other byte.
pub fn digit_value(b: u8) -> u64
    ensures value { result ≡ digit_value b }
    ensures few { result ≤ 36 }
{
    match b {
        b'0'..=b'9' => u64::from(b - b'0'),
        b'A'..=b'Z' => u64::from(b - b'A' + 10),
        b'a'..=b'z' => u64::from(b - b'a' + 10),
        _ => 36,
    }
}

/// Whether it is a digit of the radix.
pub fn is_digit(b: u8, radix: u64) -> bool
    ensures { result ≡ is_digit b radix }
{
    digit_value(b) < radix
}

/// How many digits of the radix stand at the front.
pub fn radix_len(text: &[u8], radix: u64) -> usize
    ensures run { result ≡ prefix_len (λ b. is_digit b radix) text.now }
    ensures within { result ≤ length text.now }
{
    text.iter().take_while(|b| is_digit(**b, radix)).count()
}

fn suffix_of(text: &[u8]) -> Option<Suffix>
    ensures { result ≡ suffix_of text.now }
{
    match text {
        b"" => Some(Suffix::Plain),
        b"u" | b"U" => Some(Suffix::Unsigned),
        b"l" | b"L" => Some(Suffix::Long),
        b"ul" | b"uL" | b"Ul" | b"UL" | b"lu" | b"lU" | b"Lu" | b"LU" => Some(Suffix::UnsignedLong),
        b"ll" | b"LL" => Some(Suffix::LongLong),
        b"ull" | b"uLL" | b"Ull" | b"ULL" | b"llu" | b"llU" | b"LLu" | b"LLU" => {
            Some(Suffix::UnsignedLongLong)
        }
        _ => None,
    }
}

fn with_suffix<'a>(radix: u64, digits: &'a [u8], suffix: Option<Suffix>) -> Option<IntegerParts<'a>>
    ensures parts { MatchOption result (with_suffix radix digits.now suffix ≡ None)
        (λ i. with_suffix radix digits.now suffix ≡ Some (record { radix = i.radix; digits = i.digits.now; suffix = i.suffix })) }
    ensures radix { IfSome result (λ i. i.radix ≡ radix) }
{
    if digits.is_empty() {
        return None;
    }
    match suffix {
        Some(suffix) => Some(IntegerParts {
            radix,
            digits,
            suffix,
        }),
        None => None,
    }
}

fn digits_of(radix: u64, text: &[u8]) -> Option<IntegerParts<'_>>
    ensures parts { MatchOption result (digits_of radix text.now ≡ None)
        (λ i. digits_of radix text.now ≡ Some (record { radix = i.radix; digits = i.digits.now; suffix = i.suffix })) }
    ensures radix { IfSome result (λ i. i.radix ≡ radix) }
{
    let len = radix_len(text, radix);
    let (digits, behind) = text.split_at(len);
    with_suffix(radix, digits, suffix_of(behind))
}

fn is_hexadecimal(text: &[u8]) -> bool
    ensures { result ≡ is_hexadecimal text.now }
{
    match text {
        b"0x" | b"0X" => true,
        _ => false,
    }
}

/// The parts of the integer constant that this text is, or nothing where it is none.
pub fn integer_of(text: &[u8]) -> Option<IntegerParts<'_>>
    ensures parts { MatchOption result (integer_of text.now ≡ None)
        (λ i. integer_of text.now ≡ Some (record { radix = i.radix; digits = i.digits.now; suffix = i.suffix })) }
    ensures radix { IfSome result (λ i. 0 < i.radix) }
{
    let (prefix, rest) = text.split_at(text.len().min(2));
    if is_hexadecimal(prefix) {
        digits_of(16, rest)
    } else if begins_with(text, b'0') {
        digits_of(8, text)
    } else {
        digits_of(10, text)
    }
}

/// Whether a preprocessing number is an integer constant.
pub fn is_integer(text: &[u8]) -> bool
    ensures { result ≡ is_integer text.now }
{
    integer_of(text).is_some()
}
