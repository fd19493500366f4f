// The least byte of two sets.
ghost use Rattle.std.specs.Prelude.{◌≡◌, ◌≤◌, ◌<◌, ◌⊎◌, ℕ, true, Some, IfSome};
ghost use Rattle.ub_base.specs.declared.names.ObjName.{ObjName};
ghost use Rattle.footprint.specs.Ranges.{has_byte, range_has};
ghost use Rattle.footprint.specs.Least.{byte_cmp, Reaches, IsLeastShared};

use crate::span::{Byte, Span};
use crate::spans::Spans;
use c_names::cmp_objects;
use std::cmp::Ordering;
use ub_base::{Frames, ObjName};

/// The least byte that is in both sets: it looks at the ranges of the smaller one.
pub fn least_common(frames: &Frames, a: &Spans, b: &Spans) -> Option<Byte>
    ensures { IsLeastShared frames.now a.now.ends.entries b.now.ends.entries result }
{
    if a.len() <= b.len() {
        least_of(frames, a, b)
    } else {
        least_of(frames, b, a)
    }
}

fn least_of(frames: &Frames, few: &Spans, many: &Spans) -> Option<Byte>
    ensures { IsLeastShared frames.now few.now.ends.entries many.now.ends.entries result }
{
    let mut best = None;
    for (key, end) in few.iter() {
        let span = Span {
            object: key.0,
            from: key.1,
            end: *end,
        };
        best = with_range(frames, best, span, many);
    }
    best
}

// The lesser of the byte found so far and the first one of a range that is in the set.
fn with_range(frames: &Frames, best: Option<Byte>, span: Span, many: &Spans) -> Option<Byte>
    ensures from { IfSome result (λ b. (best ≡ Some b)
        ⊎ ((range_has ((span.object, span.from), span.end) b.object b.at ≡ true) × (has_byte many.now.ends.entries b.object b.at ≡ true))) }
    ensures kept { (x : ObjName) (i : ℕ) → Reaches frames.now best x i → Reaches frames.now result x i }
    ensures more { (x : ObjName) (i : ℕ) → range_has ((span.object, span.from), span.end) x i ≡ true
        → has_byte many.now.ends.entries x i ≡ true → Reaches frames.now result x i }
{
    match many.overlap(span) {
        Some(at) => {
            let byte = Byte {
                object: span.object,
                at,
            };
            lesser_byte(frames, best, byte)
        }
        None => best,
    }
}

fn lesser_byte(frames: &Frames, best: Option<Byte>, byte: Byte) -> Option<Byte>
    ensures from { IfSome result (λ b. (best ≡ Some b) ⊎ (b ≡ byte)) }
    ensures kept { (x : ObjName) (i : ℕ) → Reaches frames.now best x i → Reaches frames.now result x i }
    ensures own { (x : ObjName) (i : ℕ) → Reaches frames.now (Some byte) x i → Reaches frames.now result x i }
{
    let Some(old) = best else {
        return Some(byte);
    };
    if by_byte(frames, byte, old).is_lt() {
        Some(byte)
    } else {
        best
    }
}

fn by_byte(frames: &Frames, a: Byte, b: Byte) -> Ordering
    ensures { result ≡ byte_cmp frames.now (a.object, a.at) (b.object, b.at) }
{
    cmp_objects(frames, &a.object, &b.object).then(a.at.cmp(&b.at))
}
