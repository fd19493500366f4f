// The frames of a run.
ghost use Rattle.std.specs.Prelude.{◌≡◌, ◌≤◌, ◌<◌, ◌+◌, ◌-◌, ◌^◌, [], ◌∷◌, ◌++◌, Some, IfNone, IfSome, IfOk, OnErr, length, slice_get, Contains};
ghost use Rattle.ub_base.specs.Frames.{IsFrameList};

use crate::{Frame, NoMemory};
use indexmap::IndexSet;
use std::alloc::Global;
use std::marker::Model;

/// The frames that a run has started, beside `main`.
///
/// `Frame(0)` is `main`, and `Frame(i)` is row i - 1: the frame and the event that started it.
#[derive(Drop)]
pub struct Frames {
    rows: IndexSet<(Frame, u64, u32)>,
}

impl Model for Frames {
    ghost use Rattle.std.specs.Prelude.{List};
    ghost use Rattle.ub_base.specs.Frames.{Row, IsFrameList};

    ghost Value = { List Row };

    ghost view = { λ f. f.rows.keys };

    ghost invariant = { λ f. IsFrameList f.rows.keys };
}

impl Frames {
    /// `main` alone.
    pub fn new(alloc: Global) -> Self
        ensures { result ≡ [] }
    {
        Frames {
            rows: IndexSet::new(alloc),
        }
    }

    /// The frame that the body of this node starts, which isn't there yet. It costs no scan.
    pub fn call(&mut self, parent: Frame, turn: u64, node: u32) -> Result<Frame, NoMemory>
        requires parent { parent.0 ≤ length self.old }
        requires absent { ¬ Contains self.old (parent, turn, node) }
        requires room { length self.old < 2 ^ 32 - 1 }
        ensures frame { IfOk result (λ f. f.0 ≡ length self.old + 1) }
        ensures row { IfOk result (λ _. self.new ≡ self.old ++ (parent, turn, node) ∷ []) }
        ensures err { OnErr result (self.new ≡ self.old) }
    {
        let count = self.rows.len() as u32;
        self.rows.insert((parent, turn, node))?;
        Ok(Frame(count + 1))
    }

    /// The frame that the body of this node started. It costs no scan.
    pub fn find(&self, parent: Frame, turn: u64, node: u32) -> Option<Frame>
        ensures some { IfSome result (λ f. (0 < f.0) × (f.0 ≤ length self.now) × (slice_get self.now (f.0 - 1) ≡ Some (parent, turn, node))) }
        ensures none { IfNone result (¬ Contains self.now (parent, turn, node)) }
    {
        match self.rows.get_index_of(&(parent, turn, node)) {
            Some(at) => Some(Frame(at as u32 + 1)),
            None => None,
        }
    }

    /// How many frames there are beside `main`.
    pub fn len(&self) -> u32
        ensures count { result ≡ length self.now }
        ensures rows { IsFrameList self.now }
    {
        self.rows.len() as u32
    }

    /// The frame that started this one, and the turn and node of the event that did.
    pub fn row(&self, f: Frame) -> (Frame, u64, u32)
        requires started { 0 < f.0 }
        requires within { f.0 ≤ length self.now }
        ensures row { slice_get self.now (f.0 - 1) ≡ Some result }
        ensures earlier { result.0.0 < f.0 }
        ensures rows { IsFrameList self.now }
    {
        self.rows.as_slice()[f.0 as usize - 1]
    }
}
