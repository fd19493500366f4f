// Stores.
ghost use Rattle.std.specs.Prelude.{◌≡◌, ℕ, ◌<◌, ◌+◌, ◌++◌, ◌∷◌, [], Some, length, slice_get, OnOk, OnErr, IfErr, option_map};
ghost use Rattle.std.specs.Option.{option_copied};
ghost use Rattle.ub_base.specs.declared.names.Item.TheVariants.{Write};
ghost use Rattle.c_types.specs.Types.{CType};
ghost use Rattle.c_types.specs.Shapes.{form_of};
ghost use Rattle.mem_spec.specs.Agreement.{bytes_of_kind, suits_form};
ghost use Rattle.mem_spec.specs.Acts as acts;
ghost use Rattle.mem_spec.specs.Acts.{Seen};
ghost use Rattle.mem_spec.specs.Script.{run, Done, Raised};
ghost use Rattle.mem_spec.specs.Streams.{Io};
ghost use Rattle.mem_objects.specs.Held.{Held, IsWritten, FallsIn, held_of, changed, holding};
ghost use Rattle.mem_objects.specs.Memory.{AreKnown, CellsKnown, HasCell, store_of, life_in};
ghost use Rattle.mem_objects.specs.Access.{IsReached};
ghost use Rattle.mem_objects.specs.Made.{AreNamed, IsMade};
ghost use Rattle.mem_objects.specs.Keeps.{Keeps, IsNumbered};
ghost use Rattle.mem_objects.specs.Sound.{IsSound};
ghost use Rattle.mem_objects.specs.Tags.{CellsTagged};
ghost use Rattle.mem_spec.specs.Bytes.{low_bits, number_bytes, pointer_bytes};
ghost use Rattle.mem_objects.specs.Stores.{Sees, IsShort, IsTypeOf, tagged_all, checked_store, writable};

use super::load::fits_shape;
use super::*;
use crate::{Block, MemFault, Via};
use c_types::IntKind;
use mem_objects::Accessed;
use mem_objects::cell::{low_bits, number_cells, pointer_cells};
use ub_base::Clause;

impl Memory {
    /// Stores bytes. An initialization may store to a literal and to an object defined const.
    pub fn store(
        &mut self,
        first: bool,
        via: Via,
        align: u64,
        addr: u64,
        prov: Prov,
        bytes: &Block,
        t: &mut Touched,
    ) -> Result<(), Clause>
        ensures exact { OnOk result (HasCell self.old prov → IsShort via (length bytes.now.cells) → (seen : Seen) → Sees self.old via seen → (io : Io) →
            run self.old.rows (acts.store self.old.rows first seen align addr prov (tagged_all self.old bytes.now.cells))
            (store_of self.old io) ≡ Done tt t.new (store_of self.new io)) }
        ensures raises { IfErr result (λ c. (seen : Seen) → Sees self.old via seen → (io : Io) →
            run self.old.rows (acts.store self.old.rows first seen align addr prov (tagged_all self.old bytes.now.cells)) (store_of self.old io) ≡ Raised c) }
        ensures same { OnErr result (self.new ≡ self.old) }
        ensures rows { self.new.rows ≡ self.old.rows }
        ensures rest { record self.new { objects = []; cells = [] } ≡ record self.old { objects = []; cells = [] } }
        ensures known { AreKnown self.old → CellsKnown (length self.old.origins) bytes.now.cells → AreKnown self.new }
        ensures made { (p : Prov) → IsMade self.old p → IsMade self.new p }
        ensures sound { IsSound self.old → CellsKnown (length self.old.origins) bytes.now.cells → IsSound self.new }
        ensures kept { IsNumbered (length self.old.types) via → CellsKnown (length self.old.origins) bytes.now.cells →
            CellsTagged (length self.old.types) bytes.now.cells → Keeps self.old self.new }
    {
        self.store_cells(first, via, align, addr, prov, bytes.cells(), t)
    }

    /// Stores an integer of the kind: what `store` does with its bytes.
    pub fn store_int(
        &mut self,
        first: bool,
        via: Via,
        kind: IntKind,
        value: i128,
        align: u64,
        addr: u64,
        prov: Prov,
        t: &mut Touched,
    ) -> Result<(), Clause>
        ensures exact { OnOk result (HasCell self.old prov → (seen : Seen) → Sees self.old via seen → (io : Io) →
            run self.old.rows (acts.store self.old.rows first seen align addr prov (number_bytes (bytes_of_kind kind) (low_bits value)))
            (store_of self.old io) ≡ Done tt t.new (store_of self.new io)) }
        ensures raises { IfErr result (λ c. (seen : Seen) → Sees self.old via seen → (io : Io) →
            run self.old.rows (acts.store self.old.rows first seen align addr prov (number_bytes (bytes_of_kind kind) (low_bits value)))
            (store_of self.old io) ≡ Raised c) }
        ensures same { OnErr result (self.new ≡ self.old) }
        ensures rest { record self.new { objects = []; cells = [] } ≡ record self.old { objects = []; cells = [] } }
        ensures known { AreKnown self.old → AreKnown self.new }
        ensures made { (p : Prov) → IsMade self.old p → IsMade self.new p }
        ensures sound { IsSound self.old → IsSound self.new }
        ensures kept { IsNumbered (length self.old.types) via → Keeps self.old self.new }
    {
        let cells = number_cells(low_bits(value));
        let len = kind.bytes() as usize;
        self.store_cells(first, via, align, addr, prov, &cells[..len], t)
    }

    /// Stores a pointer to an object: what `store` does with its pieces.
    pub fn store_ptr(
        &mut self,
        first: bool,
        via: Via,
        align: u64,
        addr: u64,
        prov: Prov,
        value_addr: u64,
        value_prov: Prov,
        t: &mut Touched,
    ) -> Result<(), Clause>
        ensures exact { AreNamed self.old → IsMade self.old value_prov → OnOk result (HasCell self.old prov → (seen : Seen) → Sees self.old via seen →
            (io : Io) → run self.old.rows (acts.store self.old.rows first seen align addr prov (pointer_bytes 8 0 value_prov value_addr))
            (store_of self.old io) ≡ Done tt t.new (store_of self.new io)) }
        ensures raises { AreNamed self.old → IsMade self.old value_prov → IfErr result (λ c. (seen : Seen) → Sees self.old via seen → (io : Io) →
            run self.old.rows (acts.store self.old.rows first seen align addr prov (pointer_bytes 8 0 value_prov value_addr))
            (store_of self.old io) ≡ Raised c) }
        ensures same { OnErr result (self.new ≡ self.old) }
        ensures rest { record self.new { objects = []; cells = [] } ≡ record self.old { objects = []; cells = [] } }
        ensures known { AreNamed self.old → IsMade self.old value_prov → AreKnown self.old → AreKnown self.new }
        ensures made { (p : Prov) → IsMade self.old p → IsMade self.new p }
        ensures sound { IsSound self.old → IsMade self.old value_prov → IsSound self.new }
        ensures kept { IsNumbered (length self.old.types) via → AreNamed self.old → IsMade self.old value_prov → Keeps self.old self.new }
    {
        let cells = pointer_cells(value_addr, self.origin_of(value_prov));
        self.store_cells(first, via, align, addr, prov, &cells, t)
    }

    fn store_cells(
        &mut self,
        first: bool,
        via: Via,
        align: u64,
        addr: u64,
        prov: Prov,
        cells: &[Cell],
        t: &mut Touched,
    ) -> Result<(), Clause>
        ensures exact { OnOk result (HasCell self.old prov → IsShort via (length cells.now) → (seen : Seen) → Sees self.old via seen → (io : Io) →
            run self.old.rows (acts.store self.old.rows first seen align addr prov (tagged_all self.old cells.now)) (store_of self.old io) ≡ Done tt t.new
            (store_of self.new io)) }
        ensures raises { IfErr result (λ c. (seen : Seen) → Sees self.old via seen → (io : Io) →
            run self.old.rows (acts.store self.old.rows first seen align addr prov (tagged_all self.old cells.now)) (store_of self.old io) ≡ Raised c) }
        ensures same { OnErr result (self.new ≡ self.old) }
        ensures rows { self.new.rows ≡ self.old.rows }
        ensures rest { record self.new { objects = []; cells = [] } ≡ record self.old { objects = []; cells = [] } }
        ensures known { AreKnown self.old → CellsKnown (length self.old.origins) cells.now → AreKnown self.new }
        ensures made { (p : Prov) → IsMade self.old p → IsMade self.new p }
        ensures sound { IsSound self.old → CellsKnown (length self.old.origins) cells.now → IsSound self.new }
        ensures kept { IsNumbered (length self.old.types) via → CellsKnown (length self.old.origins) cells.now →
            CellsTagged (length self.old.types) cells.now → Keeps self.old self.new }
    {
        t.clear();
        let found = self.access(cells.len() as u64, align, addr, prov, t)?;
        self.check_store(found, first, via, cells.len())?;
        self.write(found, via, cells, t);
        self.settle(found.settles);
        Ok(())
    }

    // The checks of a store once its object is known.
    fn check_store(&self, found: Accessed, first: bool, via: Via, len: usize) -> Result<(), Clause>
        requires { IsReached self.now.objects found len }
        ensures { (seen : Seen) → Sees self.now via seen → result ≡ checked_store first seen (life_in (held_of self.now.objects found.name)) found.from }
    {
        let Some(object) = self.objects.get(found.object) else {
            return Ok(());
        };
        if !self.suits_store(object, via, found.from) {
            return Err(Clause::EffectiveType);
        }
        check_writable(object, first)
    }

    // Whether a store suits the object.
    fn suits_store(&self, object: &Object, via: Via, from: u64) -> bool
        ensures { (seen : Seen) → Sees self.now via seen → result ≡ acts.suits_store seen (option_map form_of object.now.declared) from }
    {
        let Via::Scalar(id) = via else {
            return true;
        };
        let Some(shape) = object.declared() else {
            return true;
        };
        self.suits_shape(shape, id, from)
    }

    fn suits_shape(&self, shape: &Shape, id: TypeId, from: u64) -> bool
        ensures { (ty : CType) → IsTypeOf self.now id.number ty → result ≡ suits_form ty (form_of shape.now) from }
    {
        if let Some(kind) = id.kind() {
            let ty = types::int_type(kind);
            return fits_shape(shape, &ty, from);
        }
        match self.type_at(id.number.saturating_sub(types::FIRST) as usize) {
            None => true,
            Some(ty) => fits_shape(shape, ty, from),
        }
    }

    pub(super) fn type_at(&self, at: usize) -> Option<&Ty>
        ensures { option_copied result ≡ slice_get self.now.types at }
    {
        self.types.get(at)
    }

    /// Writes the bytes where an access falls.
    fn write(&mut self, found: Accessed, via: Via, cells: &[Cell], t: &mut Touched)
        requires { FallsIn self.old.objects found.object found.from (length cells.now) }
        ensures items { length t.old < 32 → t.new ≡ t.old ++ Write found.name found.from (length cells.now) ∷ [] }
        ensures written { (h : Held) → slice_get self.old.objects found.object ≡ Some h → (g : Held)
            × (self.new ≡ record self.old { objects = changed (holding g.cells) h.name self.old.objects }) × IsWritten h g found.from via cells.now }
    {
        self.objects.write(found.object, found.from, via, cells);
        t.note(Item::Write {
            object: found.name,
            from: found.from,
            len: cells.len() as u64,
        });
    }
}

/// Whether the object may be stored to.
fn check_writable(object: &Object, first: bool) -> Result<(), Clause>
    ensures { result ≡ writable first object.now.state.kind }
{
    if first {
        return Ok(());
    }
    if object.state().kind.literal {
        return Err(Clause::StoreToLiteral);
    }
    if object.state().kind.constant {
        return Err(Clause::StoreToConst);
    }
    Ok(())
}
