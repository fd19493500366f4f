// Which events are done.
ghost use Rattle.std.specs.Prelude.{◌≡◌, ◌||◌, [], OnOk, OnErr};
ghost use Rattle.c_typed.specs.declared.tree.Place.{Place as PlaceOf};
ghost use Rattle.c_typed.specs.Order.{same_place};
ghost use Rattle.ub_base.specs.declared.clause.Kind.{Kind as KindOf};
ghost use Rattle.ub_base.specs.Names.{same_kind};
ghost use Rattle.seq_order.specs.Marked.{done_in, mark_of};

use c_typed::Place;
use std::alloc::Global;
use std::marker::Model;
use ub_base::{Kind, NoMemory};

/// Which events of a node are done.
#[derive(Clone, Copy, Debug, PartialEq, Eq)]
pub struct Marks {
    pub val: bool,
    pub eff: bool,
    pub body: bool,
}

impl Marks {
    const NONE: Marks = Marks {
        val: false,
        eff: false,
        body: false,
    };

    fn has(self, kind: Kind) -> bool
        ensures { result ≡ mark_of kind self }
    {
        match kind {
            Kind::Val => self.val,
            Kind::Eff => self.eff,
            Kind::Body => self.body,
        }
    }

    fn with(self, kind: Kind) -> Marks
        ensures { (q : KindOf) → mark_of q result ≡ (same_kind kind q || mark_of q self) }
    {
        match kind {
            Kind::Val => Marks { val: true, ..self },
            Kind::Eff => Marks { eff: true, ..self },
            Kind::Body => Marks { body: true, ..self },
        }
    }
}

/// The events that are done, by node.
#[derive(Drop)]
pub struct Done {
    marks: Vec<Marks>,
}

impl Model for Done {
    ghost use Rattle.std.specs.Prelude.{List};
    ghost use Rattle.seq_order.specs.declared.done.Marks.{Marks};

    ghost Value = { List Marks };

    ghost view = { λ d. d.marks.items };
}

impl Done {
    pub fn new(alloc: Global) -> Self
        ensures { result ≡ [] }
    {
        Done {
            marks: Vec::new(alloc),
        }
    }

    /// Notes an event. It costs a push where the node is beyond all before, and a write elsewhere.
    pub fn add(&mut self, p: Place) -> Result<(), NoMemory>
        ensures ok { OnOk result ((q : PlaceOf) → done_in self.new q ≡ (same_place p q || done_in self.old q)) }
        ensures err { OnErr result ((q : PlaceOf) → done_in self.new q ≡ done_in self.old q) }
    {
        let at = p.node as usize;
        for _ in self.marks.len()..at + 1 {
            self.marks.push(Marks::NONE)?;
        }
        self.marks[at] = self.marks[at].with(p.kind);
        Ok(())
    }

    pub fn has(&self, p: Place) -> bool
        ensures { result ≡ done_in self.now p }
    {
        match self.marks.get(p.node as usize) {
            Some(marks) => marks.has(p.kind),
            None => false,
        }
    }

    /// Forgets all events, and keeps the room.
    pub fn clear(&mut self)
        ensures { self.new ≡ [] }
    {
        self.marks.clear();
    }
}
