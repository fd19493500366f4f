// Items compared one by one.
ghost use Rattle.std.specs.Prelude.{◌≡◌, ◌≤◌, ◌<◌, ℕ, false, slice_get};
ghost use Rattle.evaluation_log.specs.Kept.{IsApart, AreApart};

use addr_map::AddrMap;
use footprint::items_conflict;
use ub_base::Item;

/// Whether an item of the range conflicts with one behind it.
pub(crate) fn items_meet(items: &[Item], map: &AddrMap, from: usize, to: usize) -> bool
    ensures { result ≡ false → AreApart map.now items.now from to }
{
    for i in from..to {
        if item_meets_some(items, map, i, to) {
            return true;
        }
    }
    false
}

// Whether the item conflicts with one from there on.
fn item_meets_some(items: &[Item], map: &AddrMap, i: usize, from: usize) -> bool
    ensures { result ≡ false → (q : ℕ) → from ≤ q → IsApart map.now (slice_get items.now i) (slice_get items.now q) }
{
    for q in from..items.len() {
        if items_at_conflict(items, map, i, q) {
            return true;
        }
    }
    false
}

fn items_at_conflict(items: &[Item], map: &AddrMap, i: usize, q: usize) -> bool
    ensures { result ≡ false → IsApart map.now (slice_get items.now i) (slice_get items.now q) }
{
    match (items.get(i), items.get(q)) {
        (Some(item), Some(other)) => items_conflict(item, other, map),
        _ => false,
    }
}

/// Whether an item of one range conflicts with one of another.
pub(crate) fn spans_meet(
    items: &[Item],
    map: &AddrMap,
    a: (usize, usize),
    b: (usize, usize),
) -> bool
    ensures { result ≡ false → (p : ℕ) → a.0 ≤ p → p < a.1 → (q : ℕ) → b.0 ≤ q → q < b.1 →
        IsApart map.now (slice_get items.now p) (slice_get items.now q) }
{
    for p in a.0..a.1 {
        if meets_span(items, map, p, b) {
            return true;
        }
    }
    false
}

fn meets_span(items: &[Item], map: &AddrMap, p: usize, b: (usize, usize)) -> bool
    ensures { result ≡ false → (q : ℕ) → b.0 ≤ q → q < b.1 → IsApart map.now (slice_get items.now p) (slice_get items.now q) }
{
    for q in b.0..b.1 {
        if items_at_conflict(items, map, p, q) {
            return true;
        }
    }
    false
}
