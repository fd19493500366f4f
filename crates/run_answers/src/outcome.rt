// What an event came to.

/// What an event came to.
#[derive(Clone, Copy, Debug, PartialEq, Eq)]
pub enum Outcome {
    /// Its act is done. The value of a node is in its room.
    Done,
    /// A frame has started.
    Started,
    /// The end of the run, with its status.
    End(u8),
}
