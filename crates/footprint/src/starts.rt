// Searches among ranges of bytes, kept by object and first byte with their ends.
ghost use Rattle.std.specs.Prelude.{◌≡◌, ◌+◌, ◌≤◌, ◌<◌, ◌^◌, ℕ, OnOk, OnErr};
ghost use Rattle.std.specs.BTreeMap.{IsOrdered, IsUnchanged};
ghost use Rattle.footprint.specs.Ranges.{Without, Joins, start_cmp};
ghost use Rattle.footprint.specs.Searches.{IsLastUpTo, IsFirstFrom};

use crate::span::Span;
use std::collections::BTreeMap;
use ub_base::{NoMemory, ObjName};

/// The range of the object that begins last at or before this byte.
pub fn last_up_to(ends: &BTreeMap<(ObjName, u64), u64>, object: ObjName, at: u64) -> Option<Span>
    ensures last { IsLastUpTo ends.now object at result }
    ensures ordered { IsOrdered start_cmp ends.now }
{
    let Some((key, end)) = ends.range(..=(object, at)).next_back() else {
        return None;
    };
    if key.0 == object {
        Some(Span {
            object,
            from: key.1,
            end: *end,
        })
    } else {
        None
    }
}

/// The range of the object that begins first at or behind this byte.
pub fn first_from(ends: &BTreeMap<(ObjName, u64), u64>, object: ObjName, at: u64) -> Option<Span>
    ensures { IsFirstFrom ends.now object at result }
{
    let Some((key, end)) = ends.range((object, at)..).next() else {
        return None;
    };
    if key.0 == object {
        Some(Span {
            object,
            from: key.1,
            end: *end,
        })
    } else {
        None
    }
}

/// Takes away the ranges of the object that begin at one of these bytes.
pub fn remove_starts(
    ends: &mut BTreeMap<(ObjName, u64), u64>,
    object: ObjName,
    from: u64,
    last: u64,
)
    ensures without { Without ends.old ends.new object from last }
    ensures ordered { IsOrdered start_cmp ends.new }
    ensures was_ordered { IsOrdered start_cmp ends.old }
{
    for _ in 0..ends.len() {
        let Some(next) = first_from(ends, object, from) else {
            return;
        };
        if next.from > last {
            return;
        }
        ends.remove(&(object, next.from));
    }
}

/// Puts a range in place of those of its object that begin from its first byte up to its end.
pub fn replace(ends: &mut BTreeMap<(ObjName, u64), u64>, joined: Span) -> Result<(), NoMemory>
    requires { joined.from < joined.end }
    ensures joined { OnOk result (Joins ends.old ends.new joined.object joined.from joined.end) }
    ensures err { OnErr result (IsUnchanged ends.old ends.new) }
    ensures ordered { IsOrdered start_cmp ends.new }
    ensures was_ordered { IsOrdered start_cmp ends.old }
{
    ends.insert((joined.object, joined.from), joined.end)?;
    remove_starts(ends, joined.object, joined.from + 1, joined.end);
    Ok(())
}
