// The order of names: frames as lists of turns and nodes from `main` on, a prefix first. A number of a frame that has no
// row counts as `main`.
ghost use Rattle.std.specs.Prelude.{◌≡◌, ◌<◌, ◌∷◌, drop, length, IfSome, IfNone};
ghost use Rattle.ub_base.specs.Frames.{path_of};
ghost use Rattle.c_names.specs.Orders.{event_cmp, object_cmp, frame_cmp, object_rank, place_frame, place_turn, place_number};

use crate::path::row_at;
use std::cmp::Ordering;
use ub_base::{Event, Frame, Frames, ObjName};

/// By frame, turn, node, and then `val`, `eff`, `body`.
pub fn cmp_events(frames: &Frames, a: &Event, b: &Event) -> Ordering
    ensures { result ≡ event_cmp frames.now a.now b.now }
{
    cmp_frames(frames, a.frame, b.frame)
        .then(a.turn.cmp(&b.turn))
        .then(a.node.cmp(&b.node))
        .then(a.kind.cmp(&b.kind))
}

/// By kind (objects with static storage, literals, `argv`, its strings, automatic objects, allocated ones), and then by
/// their parts.
pub fn cmp_objects(frames: &Frames, a: &ObjName, b: &ObjName) -> Ordering
    ensures { result ≡ object_cmp frames.now a.now b.now }
{
    let (frame_a, turn_a, number_a) = place(a);
    let (frame_b, turn_b, number_b) = place(b);
    rank(a)
        .cmp(&rank(b))
        .then(cmp_frames(frames, frame_a, frame_b))
        .then(turn_a.cmp(&turn_b))
        .then(number_a.cmp(&number_b))
}

/// The place of an object's kind in the order.
fn rank(object: &ObjName) -> u8
    ensures { result ≡ object_rank object.now }
{
    match object {
        ObjName::Static(_) => 0,
        ObjName::Lit(_) => 1,
        ObjName::Argv => 2,
        ObjName::Arg(_) => 3,
        ObjName::Auto { .. } => 4,
        ObjName::Heap { .. } => 5,
    }
}

/// An object's frame, turn and number; where it has none of one, `main` or 0.
fn place(object: &ObjName) -> (Frame, u64, u32)
    ensures frame { result.0.0 ≡ place_frame object.now }
    ensures turn { result.1 ≡ place_turn object.now }
    ensures number { result.2 ≡ place_number object.now }
{
    match *object {
        ObjName::Static(number) => (Frame(0), 0, number),
        ObjName::Lit(number) => (Frame(0), 0, number),
        ObjName::Argv => (Frame(0), 0, 0),
        ObjName::Arg(number) => (Frame(0), 0, number),
        ObjName::Auto { frame, turn, decl } => (frame, turn, decl),
        ObjName::Heap { frame, turn, node } => (frame, turn, node),
    }
}

/// Frames by their steps from `main` on, a prefix first.
fn cmp_frames(frames: &Frames, a: Frame, b: Frame) -> Ordering
    ensures { result ≡ frame_cmp frames.now a.0 b.0 }
{
    let depth_a = depth(frames, a);
    let depth_b = depth(frames, b);
    if depth_a < depth_b {
        let front = raised(frames, b, depth_b - depth_a);
        below(frames, a, front).then(Ordering::Less)
    } else if depth_b < depth_a {
        let front = raised(frames, a, depth_a - depth_b);
        below(frames, front, b).then(Ordering::Greater)
    } else {
        below(frames, a, b)
    }
}

/// How many steps lead to the frame.
fn depth(frames: &Frames, of: Frame) -> u32
    ensures { result ≡ length (path_of frames.now of.0) }
{
    let mut count = 0u32;
    let mut frame = of;
    while let Some((parent, _, _)) = row_at(frames, frame) {
        count += 1;
        frame = parent;
    }
    count
}

/// The frame that the last so many steps began at; `main` where there are fewer.
fn raised(frames: &Frames, of: Frame, steps: u32) -> Frame
    ensures { path_of frames.now result.0 ≡ drop steps (path_of frames.now of.0) }
{
    let mut frame = of;
    let mut left = steps;
    while left > 0 {
        frame = parent_of(frames, frame);
        left -= 1;
    }
    frame
}

/// The frame that the last step began at; `main` of `main`.
fn parent_of(frames: &Frames, frame: Frame) -> Frame
    ensures { path_of frames.now result.0 ≡ drop 1 (path_of frames.now frame.0) }
{
    match row_at(frames, frame) {
        Some((parent, _, _)) => parent,
        None => frame,
    }
}

/// Two frames that as many steps lead to: by the first step in which they differ.
fn below(frames: &Frames, a: Frame, b: Frame) -> Ordering
    requires { length (path_of frames.now a.0) ≡ length (path_of frames.now b.0) }
    ensures { result ≡ frame_cmp frames.now a.0 b.0 }
{
    let mut a = a;
    let mut b = b;
    let mut order = Ordering::Equal;
    while let Some((row_a, row_b)) = both_rows(frames, a, b) {
        order = row_a
            .1
            .cmp(&row_b.1)
            .then(row_a.2.cmp(&row_b.2))
            .then(order);
        a = row_a.0;
        b = row_b.0;
    }
    order
}

/// A frame's row.
type Row = (Frame, u64, u32);

/// The rows of two frames that as many steps lead to, None where they are one.
fn both_rows(frames: &Frames, a: Frame, b: Frame) -> Option<(Row, Row)>
    requires { length (path_of frames.now a.0) ≡ length (path_of frames.now b.0) }
    ensures first { IfSome result (λ rows. path_of frames.now a.0 ≡ (rows.0.1, rows.0.2) ∷ path_of frames.now rows.0.0.0) }
    ensures second { IfSome result (λ rows. path_of frames.now b.0 ≡ (rows.1.1, rows.1.2) ∷ path_of frames.now rows.1.0.0) }
    ensures earlier { IfSome result (λ rows. rows.0.0.0 < a.0) }
    ensures one { IfNone result (path_of frames.now a.0 ≡ path_of frames.now b.0) }
{
    if a.0 == b.0 {
        return None;
    }
    let Some(row_a) = row_at(frames, a) else {
        return None;
    };
    let Some(row_b) = row_at(frames, b) else {
        return None;
    };
    Some((row_a, row_b))
}
