// What is shown of a run.

use addr_map::AddrMap;
use c_typed::{Program, Typed};
use seq_order::Taken;
use ub_base::{Frame, Frames};

/// A full expression that has begun and isn't settled: the frame and the turn in which it began, its number among the
/// program's terms, and the choices that its And, Or and Cond nodes made, in their order.
#[derive(Drop)]
pub struct Begun<'p> {
    pub frame: Frame,
    pub turn: u64,
    pub tree: u32,
    pub root: &'p Typed,
    pub taken: Taken,
}

/// What a watch is shown with each pick, as it stands after the pick: the frames that started, the objects that were
/// created, the full expressions that have begun and aren't settled, from the frame of `main` to the top frame, and the
/// top frame.
#[derive(Clone, Copy)]
pub struct View<'v, 'p> {
    pub frames: &'v Frames,
    pub map: &'v AddrMap,
    pub program: &'p Program,
    pub begun: &'v [Begun<'p>],
    pub top: Frame,
}
