// Which of two events comes before the other, where either is evaluated.
ghost use Rattle.std.specs.Prelude.{◌≡◌, ◌<◌, ◌^◌, Some};
ghost use Rattle.c_typed.specs.Tree.{size, tree_of};
ghost use Rattle.seq_order.specs.Marked.{taken_in};
ghost use Rattle.run_evaluations.specs.Below.{is_apart_below};

use c_typed::{Place, Typed};
use evaluation_log::Logged;
use seq_order::{Taken, before};

/// A full expression, and which operands its nodes have chosen by now.
#[derive(Clone, Copy)]
pub struct Order<'o> {
    pub root: &'o Typed,
    pub taken: &'o Taken,
}

impl Order<'_> {
    /// Whether the second event is of a node behind that of the first, and neither of the two is sequenced before the other (5.1.2.3p3).
    pub(crate) fn is_apart_below(&self, a: &Logged, b: &Logged) -> bool
        ensures { size (tree_of self.now.root.now) < 2 ^ 32 →
            result ≡ is_apart_below (taken_in self.now.taken.now) (tree_of self.now.root.now) (Some a.now) (Some b.now) }
    {
        let first = place_of(a);
        let second = place_of(b);
        a.node < b.node
            && !before(self.root, first, second, self.taken)
            && !before(self.root, second, first, self.taken)
    }
}

fn place_of(event: &Logged) -> Place
    ensures { result ≡ record { node = event.now.node; kind = event.now.kind } }
{
    Place {
        node: event.node,
        kind: event.kind,
    }
}
