// The items of an act.
ghost use Rattle.std.specs.Prelude.{◌≡◌, ◌<◌, ◌++◌, ◌∷◌, [], length, IfOk, OnOk, OnErr};

use std::alloc::Global;
use std::marker::Model;
use ub_base::{Item, NoMemory};

/// How many items there is always room for.
const ROOM: usize = 32;

/// The items that an act touches, in order. It has room for 32 items, more than an act of memory has.
#[derive(Drop)]
pub struct Touched {
    items: Vec<Item>,
}

impl Model for Touched {
    ghost use Rattle.std.specs.Prelude.{List, ◌≤◌, vec_capacity};
    ghost use Rattle.ub_base.specs.declared.names.Item.{Item};

    ghost Value = { List Item };

    ghost view = { λ t. t.items.items };

    ghost invariant = { λ t. 32 ≤ vec_capacity t.items };
}

impl Touched {
    /// No items.
    pub fn new(alloc: Global) -> Result<Touched, NoMemory>
        ensures { IfOk result (λ t. t ≡ []) }
    {
        Ok(Touched {
            items: Vec::with_capacity(alloc, ROOM)?,
        })
    }

    pub fn items(&self) -> &[Item]
        ensures { result.now ≡ self.now }
    {
        self.items.as_slice()
    }

    /// Takes all items away.
    pub fn clear(&mut self)
        ensures { self.new ≡ [] }
    {
        self.items.clear();
    }

    /// Adds an item at the end.
    pub fn add(&mut self, item: Item) -> Result<(), NoMemory>
        ensures ok { OnOk result (self.new ≡ self.old ++ item ∷ []) }
        ensures err { OnErr result (self.new ≡ self.old) }
    {
        self.items.push(item)?;
        Ok(())
    }

    /// Adds the items of the other at the end.
    pub fn join(&mut self, other: &Touched) -> Result<(), NoMemory>
        ensures ok { OnOk result (self.new ≡ self.old ++ other.now) }
        ensures err { OnErr result (self.new ≡ self.old) }
    {
        self.items.extend_from_slice(other.items())?;
        Ok(())
    }

    /// Adds an item of an act of memory, for which there is room: fewer than 32 are there.
    #[inline(always)]
    pub fn note(&mut self, item: Item)
        ensures { length self.old < 32 → self.new ≡ self.old ++ item ∷ [] }
    {
        if self.items.len() < ROOM {
            self.items.push_reserved(item);
        }
    }
}
