// The characters of constants and literals, and their escape sequences (6.4.4.4, without universal names).
ghost use Rattle.std.specs.Prelude.{◌≡◌, ◌≤◌, ◌<◌, ◌+◌, ◌∷◌, length, IfSome};
ghost use Rattle.c_lit.specs.Characters.{simple_escape, held, octal, hexadecimal, simple, escape, character};

use crate::digits::value;
use c_lex::{is_digit, radix_len};

/// The value of a character, and how many bytes spell it.
#[derive(Clone, Copy, Debug, PartialEq, Eq)]
pub struct Character {
    pub value: u8,
    pub len: usize,
}

// simple-escape-sequence: what the byte behind the backslash stands for.
fn simple_escape(b: u8) -> Option<u8>
    ensures { result ≡ simple_escape b }
{
    match b {
        b'\'' | b'"' | b'?' | b'\\' => Some(b),
        b'a' => Some(7),
        b'b' => Some(8),
        b'f' => Some(12),
        b'n' => Some(10),
        b'r' => Some(13),
        b't' => Some(9),
        b'v' => Some(11),
        _ => None,
    }
}

// An escape of these digits, if a byte holds its value.
fn held(digits: &[u8], radix: u64, len: usize) -> Option<Character>
    requires { 0 < radix }
    ensures { result ≡ held digits.now radix len }
{
    match value(digits, radix) {
        Some(number) => {
            if number <= 255 {
                Some(Character {
                    value: number as u8,
                    len,
                })
            } else {
                None
            }
        }
        None => None,
    }
}

fn octal(tail: &[u8]) -> Option<Character>
    ensures value { result ≡ octal tail.now }
    ensures within { IfSome result (λ c. (0 < c.len) × (c.len ≤ length tail.now + 1)) }
{
    let len = radix_len(tail, 8).min(3);
    let (digits, _) = tail.split_at(len);
    held(digits, 8, len + 1)
}

fn hexadecimal(rest: &[u8], behind: &[u8]) -> Option<Character>
    requires { length rest.now ≡ length behind.now + 2 }
    ensures value { result ≡ hexadecimal behind.now }
    ensures within { IfSome result (λ c. (0 < c.len) × (c.len ≤ length rest.now)) }
{
    let len = radix_len(behind, 16);
    if len == 0 {
        return None;
    }
    let (digits, _) = behind.split_at(len);
    held(digits, 16, len + 2)
}

fn simple(b: u8) -> Option<Character>
    ensures value { result ≡ simple (simple_escape b) }
    ensures within { IfSome result (λ c. c.len ≡ 2) }
{
    match simple_escape(b) {
        Some(value) => Some(Character { value, len: 2 }),
        None => None,
    }
}

// The escape sequence at the front of `rest`, whose bytes behind the backslash are `tail`.
fn escape(rest: &[u8], tail: &[u8]) -> Option<Character>
    requires { length rest.now ≡ length tail.now + 1 }
    ensures value { result ≡ escape tail.now }
    ensures within { IfSome result (λ c. (0 < c.len) × (c.len ≤ length rest.now)) }
{
    let Some((first, behind)) = tail.split_first() else {
        return None;
    };
    if is_digit(*first, 8) {
        octal(tail)
    } else if *first == b'x' {
        hexadecimal(rest, behind)
    } else {
        simple(*first)
    }
}

/// The character at the front of `rest`, whose first byte and whose others these are.
pub fn next_character(rest: &[u8], first: u8, tail: &[u8]) -> Option<Character>
    requires { rest.now ≡ first ∷ tail.now }
    ensures value { result ≡ character first tail.now }
    ensures within { IfSome result (λ c. (0 < c.len) × (c.len ≤ length rest.now)) }
{
    if first == b'\\' {
        escape(rest, tail)
    } else {
        Some(Character {
            value: first,
            len: 1,
        })
    }
}
