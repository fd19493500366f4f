// Loads of structures and unions.
ghost use Rattle.std.specs.Prelude.{◌≡◌, ◌+◌, ◌≤◌, ◌^◌, [], Some, length, slice_get, option_map, IfOk, IfErr, OnOk};
ghost use Rattle.c_types.specs.Shapes.{form_of};
ghost use Rattle.mem_spec.specs.Acts as acts;
ghost use Rattle.mem_spec.specs.Script.{run, Done, Raised};
ghost use Rattle.mem_spec.specs.Streams.{Io};
ghost use Rattle.mem_objects.specs.Held.{Held};
ghost use Rattle.mem_objects.specs.Memory.{HasCell, AreKnown, CellsKnown, store_of};
ghost use Rattle.mem_objects.specs.Made.{IsMade};
ghost use Rattle.mem_objects.specs.Keeps.{Keeps};
ghost use Rattle.mem_objects.specs.Sound.{IsSound};
ghost use Rattle.mem_objects.specs.Loads.{IfRaise};
ghost use Rattle.mem_objects.specs.Stores.{tagged_all};
ghost use Rattle.mem_objects.specs.Tags.{AddsTypes, AreTagged, CellsTagged, IsTaken};

use super::load::note_read;
use super::*;
use crate::{Block, MemFault};

impl Memory {
    /// Loads a structure or union: its bytes as they stand, with their address.
    pub fn load_block(
        &mut self,
        size: u64,
        align: u64,
        addr: u64,
        prov: Prov,
        t: &mut Touched,
    ) -> Result<Block, MemFault>
        ensures exact { IfOk result (λ block. HasCell self.old prov → AreTagged self.old → (io : Io) →
            run self.old.rows (acts.load_block self.old.rows size align addr prov) (store_of self.old io) ≡ Done (tagged_all self.new block.cells) t.new
            (store_of self.new io)) }
        ensures raises { IfErr result (λ fault. IfRaise fault (λ c. (io : Io) →
            run self.old.rows (acts.load_block self.old.rows size align addr prov) (store_of self.old io) ≡ Raised c)) }
        ensures same { IfErr result (λ fault. IfRaise fault (λ c. self.new ≡ self.old)) }
        ensures source { IfOk result (λ block. block.source ≡ Some addr) }
        ensures len { IfOk result (λ block. length block.cells ≡ size) }
        ensures cells { IfOk result (λ block. AreTagged self.old → CellsTagged (length self.new.types) block.cells) }
        ensures tagged { OnOk result (AreTagged self.old → AreTagged self.new) }
        ensures known { IfOk result (λ block. AreKnown self.old → CellsKnown (length self.new.origins) block.cells) }
        ensures made { (p : Prov) → IsMade self.old p → IsMade self.new p }
        ensures sound { IsSound self.old → IsSound self.new }
        ensures rest { record self.new { cells = []; types = [] } ≡ record self.old { cells = []; types = [] } }
        ensures kept { Keeps self.old self.new }
    {
        t.clear();
        let found = self.access(size, align, addr, prov, t)?;
        let cells = self.cells_of(found.object, found.from, size)?;
        note_read(found, size, t);
        self.settle(found.settles);
        Ok(Block::of_cells(cells, Some(addr)))
    }

    // The bytes of a range with their tags, those of an object with declared type by its scalars.
    pub(super) fn cells_of(&mut self, at: usize, from: u64, len: u64) -> Result<Vec<Cell>, NoMemory>
        ensures objects { OnOk result (self.new.objects ≡ self.old.objects) }
        ensures more { AddsTypes self.old self.new }
        ensures rest { record self.new { types = [] } ≡ record self.old { types = [] } }
        ensures len { IfOk result (λ cells. length cells.items ≡ len) }
        ensures taken { IfOk result (λ cells. from + len ≤ 2 ^ 47 → AreTagged self.old → (h : Held) → slice_get self.old.objects at ≡ Some h →
            IsTaken self.old self.new h (option_map form_of h.declared) from len cells.items) }
        ensures known { IfOk result (λ cells. AreKnown self.old → (h : Held) → slice_get self.old.objects at ≡ Some h →
            CellsKnown (length self.old.origins) cells.items) }
    {
        let declared = self.declared_at(at)?;
        self.cells_by(at, &declared, from, len)
    }

    // The declared type of the object at the place.
    fn declared_at(&self, at: usize) -> Result<Option<Rc<Shape>>, NoMemory>
        ensures { IfOk result (λ declared. (h : Held) → slice_get self.now.objects at ≡ Some h →
            option_map (λ shape. form_of shape.value) declared ≡ option_map form_of h.declared) }
    {
        match self.objects.get(at) {
            None => Ok(None),
            Some(object) => shared_shape(object),
        }
    }

    // The bytes of a range of an object with this declared type, if any.
    fn cells_by(
        &mut self,
        at: usize,
        declared: &Option<Rc<Shape>>,
        from: u64,
        len: u64,
    ) -> Result<Vec<Cell>, NoMemory>
        ensures more { AddsTypes self.old self.new }
        ensures rest { record self.new { types = [] } ≡ record self.old { types = [] } }
        ensures len { IfOk result (λ cells. length cells.items ≡ len) }
        ensures taken { IfOk result (λ cells. from + len ≤ 2 ^ 47 → AreTagged self.old → (h : Held) → slice_get self.old.objects at ≡ Some h →
            IsTaken self.old self.new h (option_map (λ shape. form_of shape.value) declared.now) from len cells.items) }
        ensures known { IfOk result (λ cells. AreKnown self.old → (h : Held) → slice_get self.old.objects at ≡ Some h →
            CellsKnown (length self.old.origins) cells.items) }
    {
        let mut cells = Vec::with_capacity(self.alloc, len as usize)?;
        for offset in 0..len {
            let place = from.saturating_add(offset);
            let cell = self.cell_in(at, place);
            let tagged = self.retagged(cell, declared, place)?;
            cells.push(tagged)?;
        }
        Ok(cells)
    }
}

// The declared type of an object, shared.
fn shared_shape(object: &Object) -> Result<Option<Rc<Shape>>, NoMemory>
    ensures { IfOk result (λ declared. option_map (λ shape. form_of shape.value) declared ≡ option_map form_of object.now.declared) }
{
    match object.declared() {
        None => Ok(None),
        Some(shape) => Ok(Some(shape.clone()?)),
    }
}
