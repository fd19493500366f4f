// Texts taken apart: words, numbers and kinds.
ghost use Rattle.std.specs.Prelude.{◌≡◌, ◌<◌, ◌∷◌, ◌++◌, ◌^◌, codes, decimal, MatchOption, Contains};
ghost use Rattle.c_names.specs.Parts.{IsNoNumber, BeginsWithNoNumber, IsNoKind, FallsIntoEvent, IsNoEventOf, FallsIntoPlace, IsNoPlaceOf};
ghost use Rattle.c_names.specs.Texts.{kind_text};

use itoa::Buffer;
use ub_base::Kind;

/// What the text of an event says, the frame still as a text.
#[derive(Clone, Copy)]
pub(crate) struct EventWords<'a> {
    pub frame: &'a [u8],
    pub turn: u64,
    pub node: u32,
    pub kind: Kind,
}

/// What the text of an object in a frame says behind the word of its kind, the frame still as a text.
#[derive(Clone, Copy)]
pub(crate) struct PlaceWords<'a> {
    pub frame: &'a [u8],
    pub turn: u64,
    pub number: u32,
}

/// A frame, a turn, a node and a kind.
pub(crate) fn event_words(text: &[u8]) -> Option<EventWords<'_>>
    ensures { MatchOption result (IsNoEventOf text.now) (λ w. FallsIntoEvent text.now w.frame.now w.turn w.node w.kind) }
{
    let Some((frame, rest)) = cut(text, b' ') else {
        return None;
    };
    let Some((turn, rest)) = number_and_rest(rest) else {
        return None;
    };
    let Some((node, word)) = small_number_and_rest(rest) else {
        return None;
    };
    let Some(kind) = kind_of(word) else {
        return None;
    };
    Some(EventWords {
        frame,
        turn,
        node,
        kind,
    })
}

/// A frame, a turn and a further number.
pub(crate) fn place_words(text: &[u8]) -> Option<PlaceWords<'_>>
    ensures { MatchOption result (IsNoPlaceOf text.now) (λ w. FallsIntoPlace text.now w.frame.now w.turn w.number) }
{
    let Some((frame, rest)) = cut(text, b' ') else {
        return None;
    };
    let Some((turn, last)) = number_and_rest(rest) else {
        return None;
    };
    let Some(number) = small_number(last) else {
        return None;
    };
    Some(PlaceWords {
        frame,
        turn,
        number,
    })
}

/// What stands before the first such byte, and after it.
pub(crate) fn cut(text: &[u8], byte: u8) -> Option<(&[u8], &[u8])>
    ensures { MatchOption result (¬ Contains text.now byte) (λ r. (text.now ≡ r.0.now ++ byte ∷ r.1.now) × ¬ Contains r.0.now byte) }
{
    let at = text.iter().position(|b| *b == byte)?;
    Some((&text[..at], &text[at + 1..]))
}

/// A number that a space follows, and what stands behind the space.
fn number_and_rest(text: &[u8]) -> Option<(u64, &[u8])>
    ensures { MatchOption result (BeginsWithNoNumber (2 ^ 64) text.now) (λ r. (decimal r.0 ++ (codes " " ++ r.1.now) ≡ text.now) × (r.0 < 2 ^ 64)) }
{
    let Some((digits, rest)) = cut(text, b' ') else {
        return None;
    };
    let Some(value) = number(digits) else {
        return None;
    };
    Some((value, rest))
}

/// The same of a number of 32 bits.
fn small_number_and_rest(text: &[u8]) -> Option<(u32, &[u8])>
    ensures { MatchOption result (BeginsWithNoNumber (2 ^ 32) text.now) (λ r. (decimal r.0 ++ (codes " " ++ r.1.now) ≡ text.now) × (r.0 < 2 ^ 32)) }
{
    let Some((digits, rest)) = cut(text, b' ') else {
        return None;
    };
    let Some(value) = small_number(digits) else {
        return None;
    };
    Some((value, rest))
}

/// The number that is written so: in decimal, without leading zeros.
pub(crate) fn number(text: &[u8]) -> Option<u64>
    ensures { MatchOption result (IsNoNumber (2 ^ 64) text.now) (λ n. decimal n ≡ text.now) }
{
    let Ok(digits) = str::from_utf8(text) else {
        return None;
    };
    let Ok(value) = digits.parse::<u64>() else {
        return None;
    };
    let mut buffer = Buffer::new();
    if buffer.format(value).as_bytes() == text {
        Some(value)
    } else {
        None
    }
}

/// The number of 32 bits that is written so.
pub(crate) fn small_number(text: &[u8]) -> Option<u32>
    ensures { MatchOption result (IsNoNumber (2 ^ 32) text.now) (λ n. decimal n ≡ text.now) }
{
    let Some(value) = number(text) else {
        return None;
    };
    if value <= 0xffff_ffff {
        Some(value as u32)
    } else {
        None
    }
}

fn kind_of(word: &[u8]) -> Option<Kind>
    ensures { MatchOption result (IsNoKind word.now) (λ k. kind_text k ≡ word.now) }
{
    if word == b"val".as_slice() {
        Some(Kind::Val)
    } else if word == b"eff".as_slice() {
        Some(Kind::Eff)
    } else if word == b"body".as_slice() {
        Some(Kind::Body)
    } else {
        None
    }
}
