// To which object each ambiguity was settled.
ghost use Rattle.std.specs.Prelude.{◌≡◌, [], OnOk, OnErr, not};
ghost use Rattle.std.specs.Bool.{OnTrue, OnFalse};
ghost use Rattle.exposure.specs.Cells.{kept_in, has_cell, is_other, MakesCell, Settles};

use std::alloc::Global;
use std::collections::BTreeMap;
use std::marker::Model;
use ub_base::{Event, NoMemory, ObjName};

/// The cells of ambiguities, each empty until the ambiguity is settled to one of its two objects. Seen as the list of
/// them.
#[derive(Drop)]
pub struct Narrowed {
    cells: BTreeMap<Event, Option<ObjName>>,
}

impl Model for Narrowed {
    ghost use Rattle.std.specs.Prelude.{List, Option};
    ghost use Rattle.ub_base.specs.declared.names.Event.{Event};
    ghost use Rattle.ub_base.specs.declared.names.ObjName.{ObjName};

    ghost Value = { List (Event × Option ObjName) };

    ghost view = { λ n. n.cells.entries };
}

impl Narrowed {
    /// Without cells.
    pub fn new(alloc: Global) -> Narrowed
        ensures { result ≡ [] }
    {
        Narrowed {
            cells: BTreeMap::new(alloc),
        }
    }

    /// Makes the empty cell of an ambiguity, where it has none.
    pub fn make(&mut self, id: Event) -> Result<(), NoMemory>
        ensures ok { OnOk result (MakesCell self.old self.new id) }
        ensures err { OnErr result (self.new ≡ self.old) }
    {
        if !self.cells.contains_key(&id) {
            self.cells.insert(id, None)?;
        }
        Ok(())
    }

    /// Settles the ambiguity to an object: false, unchanged, exactly where it was settled to another. Where it has no
    /// cell nothing is kept.
    pub fn narrow(&mut self, id: Event, keep: ObjName) -> bool
        ensures answer { result ≡ not (is_other (kept_in self.old id) keep) }
        ensures settled { OnTrue result (Settles self.old self.new id keep) }
        ensures unchanged { OnFalse result (self.new ≡ self.old) }
    {
        match self.cells.get(&id).copied() {
            None => true,
            Some(Some(kept)) => kept == keep,
            Some(None) => {
                let _ = self.cells.insert(id, Some(keep));
                true
            }
        }
    }

    /// The object to which the ambiguity was settled.
    pub fn kept(&self, id: Event) -> Option<ObjName>
        ensures { result ≡ kept_in self.now id }
    {
        self.cells.get(&id).copied()?
    }
}
