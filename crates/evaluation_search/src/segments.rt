// Where the parts of segments begin, and what is kept of these.
ghost use Rattle.std.specs.Prelude.{Box, ◌≡◌, ◌≢◌, ◌≤◌, ℕ, suc, true, Some, slice_get};
ghost use Rattle.std.specs.Global.{Global};
ghost use Rattle.footprint.specs.declared.foot.Foot.{Foot};
ghost use Rattle.evaluation_log.specs.declared.log.Segment.{Segment};
ghost use Rattle.evaluation_log.specs.Kept.{foot_of, items_of, large_of};
ghost use Rattle.evaluation_log.specs.Touched.{start_of};
ghost use Rattle.evaluation_log.specs.Ways.{node_of};
ghost use Rattle.evaluation_search.specs.Segments.{AreAlike, IsTaken};

use evaluation_log::{Logged, Segment};
use footprint::Foot;
use ub_base::Item;

/// Where the events of a segment begin; behind the last one, where the events end.
pub(crate) fn segment_start(segments: &[Segment], events: &[Logged], group: usize) -> usize
    ensures { result ≡ start_of segments.now events.now group }
{
    match segments.get(group) {
        Some(segment) => segment.first,
        None => events.len(),
    }
}

/// Where the events behind a segment begin.
pub(crate) fn segment_end(segments: &[Segment], events: &[Logged], group: usize) -> usize
    ensures { result ≡ start_of segments.now events.now (suc group) }
{
    segment_start(segments, events, group.saturating_add(1))
}

/// Where the items of a segment begin; behind the last one, where the items end.
pub(crate) fn items_start(segments: &[Segment], items: &[Item], group: usize) -> usize
    ensures { result ≡ items_of segments.now items.now group }
{
    match segments.get(group) {
        Some(segment) => segment.items,
        None => items.len(),
    }
}

/// Where the large bodies of a segment begin; behind the last one, where their list ends.
pub(crate) fn large_start(segments: &[Segment], large: &[usize], group: usize) -> usize
    ensures { result ≡ large_of segments.now large.now group }
{
    match segments.get(group) {
        Some(segment) => segment.large,
        None => large.len(),
    }
}

/// Where the large bodies behind a segment begin.
pub(crate) fn large_end(segments: &[Segment], large: &[usize], group: usize) -> usize
    ensures { result ≡ large_of segments.now large.now (suc group) }
{
    large_start(segments, large, group.saturating_add(1))
}

/// Whether each segment from this one on is harmless.
pub fn all_harmless(segments: &[Segment], at: usize) -> bool
    ensures { result ≡ true → (g : ℕ) (s : Segment) → at ≤ g → slice_get segments.now g ≡ Some s → s.harmless ≡ true }
{
    for group in at..segments.len() {
        if !is_harmless(segments, group) {
            return false;
        }
    }
    true
}

fn is_harmless(segments: &[Segment], group: usize) -> bool
    ensures { result ≡ true → (s : Segment) → slice_get segments.now group ≡ Some s → s.harmless ≡ true }
{
    match segments.get(group) {
        Some(segment) => segment.harmless,
        None => true,
    }
}

/// The set that is kept of a segment, and no longer is.
pub fn take_foot(segments: &mut [Segment], at: usize) -> Option<Box<Foot>>
    ensures taken { IsTaken segments.old segments.new at }
    ensures nodes { (g : ℕ) → node_of (slice_get segments.new g) ≡ node_of (slice_get segments.old g) }
    ensures given { result ≡ foot_of (slice_get segments.old at) }
{
    if at >= segments.len() {
        return None;
    }
    segments[at].foot.take()
}

/// This set is kept of a segment.
pub(crate) fn put_foot(segments: &mut [Segment], at: usize, foot: Option<Box<Foot>>)
    ensures same { AreAlike segments.old segments.new }
    ensures others { (g : ℕ) → g ≢ at → slice_get segments.new g ≡ slice_get segments.old g }
    ensures foot { (f : Box Foot Global) → foot_of (slice_get segments.new at) ≡ Some f → foot ≡ Some f }
{
    if at < segments.len() {
        segments[at].foot = foot;
    }
}
