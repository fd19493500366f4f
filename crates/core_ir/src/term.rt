// Terms.

use c_typed::Program;
use ub_base::{Boxed, Items, Kind};

/// Terms side by side: those of a program, or the parts of an Unseq.
#[cycle(core)]
#[derive(Drop)]
pub struct Cores {
    pub items: Items<Core>,
}

/// What a full expression evaluates, and in which order (own). Numbers are the preorder numbers of its nodes.
#[cycle(core)]
#[derive(Drop)]
pub enum Core {
    /// A node without events.
    Pure(u32),
    /// An event.
    Act(u32, Kind),
    /// Parts in no order.
    Unseq(Cores),
    /// Each value and each body of the first part comes before all of the second (5.1.2.3p3).
    Weak(Boxed<Core>, Boxed<Core>),
    /// All of the first part, its effects too, comes before all of the second.
    Strong(Boxed<Core>, Boxed<Core>),
    /// The first operand of an And, Or or Cond, and a continuation for each operand that may be evaluated next: the second,
    /// and the third of a Cond. All of the first operand comes before the continuation that is taken and before the value of
    /// the node (6.5.13p4, 6.5.14p4, 6.5.15p4); where none is taken it orders nothing.
    Choose(u32, Boxed<Core>, Boxed<Core>, Boxed<Core>),
    /// An update, whose halves no body may come between (6.5.2.4p2, 6.5.16.2p3).
    Atomic(Boxed<Core>),
    /// A body, which is indeterminately sequenced to what is neither before nor after it (6.5.2.2p10).
    Indet(Boxed<Core>),
    /// The event by which a body starts.
    Invoke(u32),
}

/// A program with a term for each of its full expressions: function by function, within one in the order of the text,
/// the own tree of each listed initializer after the expression that holds it. Nothing is asked of the terms.
#[derive(Drop)]
pub struct CoreProgram<'p> {
    pub program: &'p Program,
    pub terms: Cores,
}
