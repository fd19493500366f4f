// Character constants and string literals.
ghost use Rattle.std.specs.Prelude.{◌≡◌, ◌≢◌, ◌≤◌, ◌<◌, ◌+◌, ◌^◌, ◌++◌, length, take, false, ℤ, OnOk, OnErr, IfSome, IfOk, IfErr, OnSome, None, Err};
ghost use Rattle.std.specs.Option.{option_map};
ghost use Rattle.c_lit.specs.Literals.{is_body, body_of, char_value, char_int, only_character, string_value, IsAppended, GainsCharacters};
ghost use Rattle.c_lit.specs.Characters.{characters};
ghost use Rattle.c_lit.specs.declared.fault.LitFault.{LitFault};

use crate::LitFault;
use crate::character::next_character;
use ub_base::Bytes;

// Whether a backslash takes each byte behind it, and no line feed and no bare quote stands there.
fn is_body(quote: u8, text: &[u8]) -> bool
    ensures { result ≡ is_body quote false text.now }
{
    let mut escaped = false;
    for b in text {
        if *b == b'\n' || (!escaped && *b == quote) {
            return false;
        }
        escaped = !escaped && *b == b'\\';
    }
    !escaped
}

// What stands between the quotes.
fn body_of(quote: u8, text: &[u8]) -> Option<&[u8]>
    ensures value { option_map (λ body. body.now) result ≡ body_of quote text.now }
    ensures within { IfSome result (λ body. length body.now ≤ length text.now) }
{
    let Some((first, tail)) = text.split_first() else {
        return None;
    };
    let Some((last, body)) = tail.split_last() else {
        return None;
    };
    if (*first == quote && *last == quote) && is_body(quote, body) {
        Some(body)
    } else {
        None
    }
}

// The value of a byte as a `char` (6.4.4.4p10), which is signed.
fn char_int(value: u8) -> i32
    ensures { result ≡ char_int value }
{
    if value < 128 {
        i32::from(value)
    } else {
        i32::from(value) - 256
    }
}

// The one character that stands there.
fn only_character(body: &[u8]) -> Option<u8>
    ensures { result ≡ only_character body.now }
{
    let Some((first, tail)) = body.split_first() else {
        return None;
    };
    match next_character(body, *first, tail) {
        Some(c) => {
            if c.len == body.len() {
                Some(c.value)
            } else {
                None
            }
        }
        None => None,
    }
}

/// The value of a character constant without prefix, whose spelling this is (6.4.4.4p10).
pub fn char_value(text: &[u8]) -> Result<i32, LitFault>
    ensures { result ≡ char_value text.now }
{
    let Some(body) = body_of(b'\'', text) else {
        return Err(LitFault::BadSuffix);
    };
    match only_character(body) {
        Some(value) => Ok(char_int(value)),
        None => Err(LitFault::BadEscape),
    }
}

// Adds the characters that stand there, or a part of them before a fault.
fn add_characters(out: &mut Bytes, body: &[u8]) -> Result<(), LitFault>
    ensures ok { OnOk result (GainsCharacters out.old out.new body.now) }
    ensures fault { IfErr result (λ fault. fault ≢ LitFault.NoMemory → (fault ≡ LitFault.BadEscape) × (characters body.now ≡ None)) }
    ensures front { take (length out.old) out.new ≡ out.old }
{
    let mut rest = body;
    while let Some((first, tail)) = rest.split_first() {
        let Some(next) = next_character(rest, *first, tail) else {
            return Err(LitFault::BadEscape);
        };
        out.push(next.value)?;
        let (_, behind) = rest.split_at(next.len);
        rest = behind;
    }
    Ok(())
}

/// Adds the bytes of a string literal without prefix, whose spelling this is, and no zero behind them (6.4.5).
/// After a refusal `out` is as it was.
pub fn string_bytes(out: &mut Bytes, text: &[u8]) -> Result<(), LitFault>
    ensures ok { OnOk result (IsAppended out.old out.new text.now) }
    ensures fault { IfErr result (λ fault. fault ≢ LitFault.NoMemory → string_value text.now ≡ Err fault) }
    ensures err { OnErr result (out.new ≡ out.old) }
{
    let Some(body) = body_of(b'"', text) else {
        return Err(LitFault::BadSuffix);
    };
    let len = out.len();
    match add_characters(out, body) {
        Ok(()) => Ok(()),
        Err(fault) => {
            out.truncate(len);
            Err(fault)
        }
    }
}
