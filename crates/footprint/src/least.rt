// The least conflicting pair of items of two footprints.
ghost use Rattle.std.specs.Prelude.{◌≡◌, true, IfSome};
ghost use Rattle.footprint.specs.Candidates.{stream_pair};
ghost use Rattle.addr_map.specs.Conflict.{is_access};
ghost use Rattle.footprint.specs.Conflicts.{MayConflict};
ghost use Rattle.footprint.specs.Found.{ConflictIn, RaceIn};
ghost use Rattle.footprint.specs.Least.{IsLeast, read_at, write_at, paired};

use crate::Foot;
use crate::addresses::{lookup_pair, state_pair};
use crate::order::{least_of_three, lesser, when};
use crate::settled::narrow_pair;
use crate::shared::least_common;
use crate::span::Byte;
use addr_map::AddrMap;
use ub_base::{Frames, Item};

/// The least pair of an item of `a` and an item of `b` that conflict, each Read and Write being of one byte: by the first
/// item and then the second, items by kind in the order of `Item` and then by their parts.
pub fn conflict(frames: &Frames, a: &Foot, b: &Foot, map: &AddrMap) -> Option<(Item, Item)>
    ensures may { IfSome result (λ p. MayConflict p.0 p.1) }
    ensures least { IsLeast frames.now (ConflictIn a.now b.now map.now) result }
{
    least_of_three(
        frames,
        lesser(
            frames,
            access_pair(frames, a, b),
            state_pair(frames, a, b, map),
        ),
        lesser(
            frames,
            lookup_pair(frames, a, b, map),
            narrow_pair(frames, a, b),
        ),
        stream_pair(frames, a, b),
    )
}

/// The least pair of accesses of one byte, of which one is a Write.
pub fn access_pair(frames: &Frames, a: &Foot, b: &Foot) -> Option<(Item, Item)>
    ensures may { IfSome result (λ p. MayConflict p.0 p.1) }
    ensures accesses { IfSome result (λ p. (is_access p.0 ≡ true) × (is_access p.1 ≡ true)) }
    ensures least { IsLeast frames.now (RaceIn a.now b.now) result }
{
    let read = read_written(least_common(frames, &a.reads, &b.writes));
    let written = written_read(least_common(frames, &a.writes, &b.reads));
    let twice = written_twice(least_common(frames, &a.writes, &b.writes));
    lesser(frames, lesser(frames, read, written), twice)
}

fn read_written(byte: Option<Byte>) -> Option<(Item, Item)>
    ensures { result ≡ paired read_at write_at byte }
{
    let byte = byte?;
    Some((read_at(byte), write_at(byte)))
}

fn written_read(byte: Option<Byte>) -> Option<(Item, Item)>
    ensures { result ≡ paired write_at read_at byte }
{
    let byte = byte?;
    Some((write_at(byte), read_at(byte)))
}

fn written_twice(byte: Option<Byte>) -> Option<(Item, Item)>
    ensures { result ≡ paired write_at write_at byte }
{
    let byte = byte?;
    Some((write_at(byte), write_at(byte)))
}

fn read_at(byte: Byte) -> Item
    ensures { result ≡ read_at byte.object byte.at }
{
    Item::Read {
        object: byte.object,
        from: byte.at,
        len: 1,
    }
}

fn write_at(byte: Byte) -> Item
    ensures { result ≡ write_at byte.object byte.at }
{
    Item::Write {
        object: byte.object,
        from: byte.at,
        len: 1,
    }
}

fn stream_pair(frames: &Frames, a: &Foot, b: &Foot) -> Option<(Item, Item)>
    ensures { result ≡ stream_pair frames.now a.now b.now }
{
    lesser(
        frames,
        least_of_three(
            frames,
            when(a.input && b.input, Item::Input, Item::Input),
            when(a.output && b.output, Item::Output, Item::Output),
            when(a.ending && b.any, Item::Ending, Item::Any),
        ),
        when(a.any && b.ending, Item::Any, Item::Ending),
    )
}
