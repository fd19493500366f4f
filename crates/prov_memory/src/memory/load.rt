// Loads.
ghost use Rattle.std.specs.Prelude.{◌≡◌, ℕ, ◌+◌, ◌<◌, ◌≤◌, ◌^◌, ◌&&◌, ◌==◌, ◌++◌, ◌∷◌, [], List, Some, Ok, Err, true, false, length, map, slice_get};
ghost use Rattle.std.specs.Prelude.{option_map, IfOk, IfErr, IfSome, OnOk, OnErr};
ghost use Rattle.ub_base.specs.Names.{same_event, same_object};
ghost use Rattle.ub_base.specs.declared.names.Item.TheVariants.{Alive, Expose, Read};
ghost use Rattle.c_types.specs.Types.{type_of, qualified_of, pointer};
ghost use Rattle.c_types.specs.Same.{agrees, matches};
ghost use Rattle.c_types.specs.Shapes.{form_of};
ghost use Rattle.mem_spec.specs.Agreement as agreement;
ghost use Rattle.mem_spec.specs.Agreement.{leaf_agrees, suits_form};
ghost use Rattle.mem_spec.specs.Acts as acts;
ghost use Rattle.mem_spec.specs.Acts.{candidates, origins_in, tag_agrees, tags_agree};
ghost use Rattle.mem_spec.specs.Script.{run, Done, Raised};
ghost use Rattle.mem_spec.specs.Store.{is_live};
ghost use Rattle.mem_spec.specs.Streams.{Io};
ghost use Rattle.mem_objects.specs.Cells.{byte_in, cell_at, prov_numbered, tag_in};
ghost use Rattle.mem_objects.specs.Held.{Held, held_of};
ghost use Rattle.mem_objects.specs.Memory.{Kept, HasCell, AreKnown, life_in, store_of, uncovered_each};
ghost use Rattle.mem_objects.specs.Made.{Extends, HasMore, IsMade};
ghost use Rattle.mem_objects.specs.Keeps.{Keeps};
ghost use Rattle.mem_objects.specs.Sound.{IsSound};
ghost use Rattle.mem_objects.specs.Access.{IsReached, bytes_in, range_in};
ghost use Rattle.prov_memory.specs.Named.{named_in};
ghost use Rattle.mem_objects.specs.Loads as loads;
ghost use Rattle.mem_objects.specs.Loads.{IfPointer, IfRaise, IsLoaded, is_dead_in, number_if, number_read, origins_of, pointer_items};

use super::*;
use crate::{MemFault, Value};
use c_types::{IntKind, Qual, agrees};
use mem_objects::cell::{cell_at, value_of};
use mem_objects::{Accessed, State};
use ub_base::Clause;

impl Memory {
    // Exposes what the pieces of pointers in the range were made from. Where it is plain, none of its bytes is one.
    #[inline(always)]
    fn show_pieces(&mut self, at: usize, from: u64, len: u64, plain: bool, t: &mut Touched)
        requires short { len ≤ 8 }
        requires range { from + len ≤ 2 ^ 47 }
        requires plain { plain ≡ true → (h : Held) → slice_get self.old.objects at ≡ Some h → origins_of (bytes_in self.old h from len) ≡ [] }
        ensures shown { (h : Held) → slice_get self.old.objects at ≡ Some h →
            self.new ≡ record self.old { objects = uncovered_each (origins_of (bytes_in self.old h from len)) self.old.objects } }
        ensures items { (h : Held) → slice_get self.old.objects at ≡ Some h → length t.old + 16 < 32 →
            t.new ≡ t.old ++ map Expose (origins_of (bytes_in self.old h from len)) }
    {
        if !plain {
            self.show_all_pieces(at, from, len, t);
        }
    }

    // What `show_pieces` does. Not inlined, since few bytes are pieces of pointers.
    #[inline(never)]
    fn show_all_pieces(&mut self, at: usize, from: u64, len: u64, t: &mut Touched)
        requires short { len ≤ 8 }
        requires range { from + len ≤ 2 ^ 47 }
        ensures shown { (h : Held) → slice_get self.old.objects at ≡ Some h →
            self.new ≡ record self.old { objects = uncovered_each (origins_of (bytes_in self.old h from len)) self.old.objects } }
        ensures items { (h : Held) → slice_get self.old.objects at ≡ Some h → length t.old + 16 < 32 →
            t.new ≡ t.old ++ map Expose (origins_of (bytes_in self.old h from len)) }
    {
        for offset in 0..len {
            let cell = self.cell_in(at, from + offset);
            self.show_piece(cell, t);
        }
    }

    // The byte at a place of an object.
    #[inline(always)]
    pub(super) fn cell_in(&self, at: usize, place: u64) -> Cell
        ensures { (h : Held) → slice_get self.now.objects at ≡ Some h → result ≡ cell_at h.cells place }
    {
        match self.objects.get(at) {
            None => Cell::UNWRITTEN,
            Some(object) => object.cell(place),
        }
    }

    // Exposes what a byte is a piece of, if it is one.
    pub(super) fn show_piece(&mut self, cell: Cell, t: &mut Touched)
        ensures shown { self.new ≡ record self.old { objects = uncovered_each (origins_in (byte_in self.old.origins cell)) self.old.objects } }
        ensures items { length t.old + 1 < 32 → t.new ≡ t.old ++ map Expose (origins_in (byte_in self.old.origins cell)) }
    {
        match cell.state {
            State::Unwritten => {}
            State::Plain => {}
            State::Piece => self.show_origin(cell.origin, t),
        }
    }

    // Exposes the objects of a provenance. Not inlined, since few bytes are pieces of pointers.
    #[inline(never)]
    fn show_origin(&mut self, origin: Origin, t: &mut Touched)
        ensures shown { self.new ≡ record self.old { objects = uncovered_each (candidates (prov_numbered self.old.origins origin.number)) self.old.objects } }
        ensures items { length t.old + 1 < 32 → t.new ≡ t.old ++ map Expose (candidates (prov_numbered self.old.origins origin.number)) }
    {
        let prov = self.prov(origin);
        self.show_each(prov, t);
    }

    /// Loads an integer (6.3.2.1p2).
    #[inline(always)]
    pub fn load_int(
        &mut self,
        kind: IntKind,
        addr: u64,
        prov: Prov,
        t: &mut Touched,
    ) -> Result<i128, Clause>
        ensures exact { IfOk result (λ value. HasCell self.old prov → (io : Io) →
            run self.old.rows (acts.load_int self.old.rows kind addr prov) (store_of self.old io) ≡ Done value t.new (store_of self.new io)) }
        ensures raises { IfErr result (λ c. (io : Io) → run self.old.rows (acts.load_int self.old.rows kind addr prov) (store_of self.old io) ≡ Raised c) }
        ensures same { OnErr result (self.new ≡ self.old) }
        ensures rest { record self.new { objects = []; cells = [] } ≡ record self.old { objects = []; cells = [] } }
        ensures made { (p : Prov) → IsMade self.old p → IsMade self.new p }
        ensures sound { IsSound self.old → IsSound self.new }
        ensures kept { Keeps self.old self.new }
    {
        t.clear();
        let len = kind.bytes();
        let ty = types::int_type(kind);
        let found = self.access(len, len, addr, prov, t)?;
        let number = self.load_number(found, &ty, len, t, is_bool(kind))?;
        Ok(value_of(kind, number))
    }

    /// Loads a pointer to a function, which is a plain address.
    pub fn load_func(
        &mut self,
        ty: &Ty,
        addr: u64,
        prov: Prov,
        t: &mut Touched,
    ) -> Result<u64, Clause>
        ensures exact { IfOk result (λ target. HasCell self.old prov → (io : Io) →
            run self.old.rows (acts.load_func self.old.rows (type_of ty.now) addr prov) (store_of self.old io) ≡ Done target t.new (store_of self.new io)) }
        ensures raises { IfErr result (λ c. (io : Io) → run self.old.rows (acts.load_func self.old.rows (type_of ty.now) addr prov)
            (store_of self.old io) ≡ Raised c) }
        ensures same { OnErr result (self.new ≡ self.old) }
        ensures rest { record self.new { objects = []; cells = [] } ≡ record self.old { objects = []; cells = [] } }
        ensures made { (p : Prov) → IsMade self.old p → IsMade self.new p }
        ensures sound { IsSound self.old → IsSound self.new }
        ensures kept { Keeps self.old self.new }
    {
        t.clear();
        let found = self.access(8, 8, addr, prov, t)?;
        self.load_number(found, ty, 8, t, false)
    }

    // Whether the type of a load suits the bytes that it meets.
    #[inline(always)]
    fn suits_load(&self, object: &Object, ty: &Ty, from: u64, len: u64) -> bool
        requires { from + len ≤ 2 ^ 47 }
        ensures { result ≡ acts.suits_load (type_of ty.now) (option_map form_of object.now.declared) from (bytes_in self.now object.now from len) }
    {
        match object.declared() {
            Some(shape) => fits_shape(shape, ty, from),
            None => ty.is_character() || self.suits_tags(object, ty, from, len),
        }
    }

    // Whether each byte has no tag, or the tag of its place in a scalar whose type the access agrees with.
    fn suits_tags(&self, object: &Object, ty: &Ty, from: u64, len: u64) -> bool
        requires { from + len ≤ 2 ^ 47 }
        ensures { result ≡ tags_agree (type_of ty.now) 0 (bytes_in self.now object.now from len) }
    {
        for index in 0..len {
            if !self.suits_tag(ty, object.cell(from + index), index) {
                return false;
            }
        }
        true
    }

    fn suits_tag(&self, ty: &Ty, cell: Cell, index: u64) -> bool
        ensures { result ≡ tag_agrees (type_of ty.now) index (tag_in (map type_of self.now.types) cell) }
    {
        let number = cell.tag.number;
        if number == 0 {
            return true;
        }
        if let Some(kind) = cell.tag.kind() {
            let known = types::int_type(kind);
            return fits_tag(ty, &known, cell.tag_index, index);
        }
        match self.type_at(number.saturating_sub(types::FIRST) as usize) {
            None => true,
            Some(known) => fits_tag(ty, known, cell.tag_index, index),
        }
    }

    #[inline(always)]
    fn load_number(
        &mut self,
        found: Accessed,
        ty: &Ty,
        len: u64,
        t: &mut Touched,
        is_bool: bool,
    ) -> Result<u64, Clause>
        requires short { len ≤ 8 }
        requires reached { IsReached self.old.objects found len }
        ensures number { IfOk result (λ number. (h : Held) → slice_get self.old.objects found.object ≡ Some h →
            Ok number ≡ number_read (type_of ty.now) is_bool (option_map form_of h.declared) found.from (bytes_in self.old h found.from len)) }
        ensures loaded { OnOk result ((h : Held) → slice_get self.old.objects found.object ≡ Some h →
            IsLoaded self.old self.new (origins_of (bytes_in self.old h found.from len)) found.settles) }
        ensures items { OnOk result ((h : Held) → slice_get self.old.objects found.object ≡ Some h → length t.old + 17 < 32 →
            t.new ≡ (t.old ++ Read found.name found.from len ∷ []) ++ map Expose (origins_of (bytes_in self.old h found.from len))) }
        ensures raises { IfErr result (λ c. (h : Held) → slice_get self.old.objects found.object ≡ Some h →
            Err c ≡ number_read (type_of ty.now) is_bool (option_map form_of h.declared) found.from (bytes_in self.old h found.from len)) }
        ensures same { OnErr result (self.new ≡ self.old) }
        ensures rest { record self.new { objects = []; cells = [] } ≡ record self.old { objects = []; cells = [] } }
        ensures made { (p : Prov) → IsMade self.old p → IsMade self.new p }
        ensures sound { IsSound self.old → IsSound self.new }
        ensures kept { Keeps self.old self.new }
    {
        let seen = self.seen(found, len);
        let (number, plain) = seen;
        let number = self.suited(found, ty, len, is_bool, number)?;
        note_read(found, len, t);
        self.show_pieces(found.object, found.from, len, plain, t);
        self.settle(found.settles);
        Ok(number)
    }

    // The number of the bytes where a load falls, if all are written, and whether they are plain: none of them is a piece of a pointer.
    #[inline(always)]
    fn seen(&self, found: Accessed, len: u64) -> (Option<u64>, bool)
        requires short { len ≤ 8 }
        requires reached { IsReached self.now.objects found len }
        ensures number { (h : Held) → slice_get self.now.objects found.object ≡ Some h → result.0 ≡ number_if (bytes_in self.now h found.from len) }
        ensures plain { result.1 ≡ true → (h : Held) → slice_get self.now.objects found.object ≡ Some h → origins_of (bytes_in self.now h found.from len) ≡ [] }
    {
        match self.objects.get(found.object) {
            None => (None, false),
            Some(object) => seen_at(object.cells(), found.from, len),
        }
    }

    // That number, where a load of the type suits the bytes.
    #[inline(always)]
    fn suited(
        &self,
        found: Accessed,
        ty: &Ty,
        len: u64,
        is_bool: bool,
        number: Option<u64>,
    ) -> Result<u64, Clause>
        requires reached { IsReached self.now.objects found len }
        requires number { (h : Held) → slice_get self.now.objects found.object ≡ Some h → number ≡ number_if (bytes_in self.now h found.from len) }
        ensures { (h : Held) → slice_get self.now.objects found.object ≡ Some h →
            result ≡ number_read (type_of ty.now) is_bool (option_map form_of h.declared) found.from (bytes_in self.now h found.from len) }
    {
        let Some(object) = self.objects.get(found.object) else {
            return Err(Clause::Indeterminate);
        };
        if self.suits_load(object, ty, found.from, len) {
            number_checked(is_bool, number)
        } else {
            Err(Clause::EffectiveType)
        }
    }

    /// Loads a pointer to an object: the value of its eight pieces, or else what an integer cast of its bytes gives.
    #[inline(always)]
    pub fn load_ptr(
        &mut self,
        ty: &Ty,
        who: Event,
        align: u64,
        addr: u64,
        prov: Prov,
        t: &mut Touched,
    ) -> Result<Value, MemFault>
        ensures exact { IfOk result (λ value. IfPointer value (λ a p. HasCell self.old prov → AreKnown self.old → (io : Io) →
            run self.old.rows (acts.load_ptr self.old.rows (type_of ty.now) who align addr prov) (store_of self.old io) ≡ Done (a, p) t.new
            (store_of self.new io))) }
        ensures raises { IfErr result (λ fault. IfRaise fault (λ c. (io : Io) →
            run self.old.rows (acts.load_ptr self.old.rows (type_of ty.now) who align addr prov) (store_of self.old io) ≡ Raised c)) }
        ensures same { IfErr result (λ fault. IfRaise fault (λ c. self.new ≡ self.old)) }
        ensures rest { record self.new { origins = []; cells = [] } ≡ record self.old { origins = []; cells = [] } }
        ensures origins { Extends self.old.origins self.new.origins }
        ensures value { IfOk result (λ value. IfPointer value (λ a p. IsSound self.old → IsMade self.new p)) }
        ensures made { (p : Prov) → IsMade self.old p → IsMade self.new p }
        ensures sound { IsSound self.old → IsSound self.new }
        ensures kept { Keeps self.old self.new }
    {
        t.clear();
        let found = self.access(8, align, addr, prov, t)?;
        let seen = self.pointer_seen(found);
        let (number, pointer) = seen;
        let number = self.suited(found, ty, 8, false, number)?;
        note_read(found, 8, t);
        let target = self.resolved(pointer, who, number, t)?;
        self.settle(found.settles);
        Ok(Value::Ptr {
            addr: number,
            prov: target,
        })
    }

    // The number of the eight bytes where a load falls, if all are written, and that of what they were made from, where they are the pieces of one
    // pointer value, from 0 on.
    #[inline(always)]
    fn pointer_seen(&self, found: Accessed) -> (Option<u64>, Option<Origin>)
        requires { IsReached self.now.objects found 8 }
        ensures number { (h : Held) → slice_get self.now.objects found.object ≡ Some h → result.0 ≡ number_if (bytes_in self.now h found.from 8) }
        ensures pointer { (h : Held) → slice_get self.now.objects found.object ≡ Some h →
            named_in self.now.origins result.1 ≡ acts.pointer_in (bytes_in self.now h found.from 8) }
    {
        match self.objects.get(found.object) {
            None => (None, None),
            Some(object) => self.pointer_read(object, found.from),
        }
    }

    // The same of eight bytes of an object. Most are the pieces of one pointer value.
    #[inline(always)]
    fn pointer_read(&self, object: &Object, from: u64) -> (Option<u64>, Option<Origin>)
        requires { from + 8 ≤ 2 ^ 47 }
        ensures number { result.0 ≡ number_if (bytes_in self.now object.now from 8) }
        ensures pointer { named_in self.now.origins result.1 ≡ acts.pointer_in (bytes_in self.now object.now from 8) }
    {
        let origin = object.cell(from).origin;
        match self.pieces_number(object.cells(), origin, from) {
            Some(number) => (Some(number), Some(origin)),
            None => self.pointer_or_number(object, from),
        }
    }

    // The same of any eight bytes. Not inlined, since few are others.
    #[inline(never)]
    fn pointer_or_number(&self, object: &Object, from: u64) -> (Option<u64>, Option<Origin>)
        requires { from + 8 ≤ 2 ^ 47 }
        ensures number { result.0 ≡ number_if (bytes_in self.now object.now from 8) }
        ensures pointer { named_in self.now.origins result.1 ≡ acts.pointer_in (bytes_in self.now object.now from 8) }
    {
        let number = number_at(object.cells(), from, 8);
        (number, self.pointer_in(object, from))
    }

    // The number of eight bytes that are the pieces, from 0 on, of one pointer value with the provenance of this number; none where they aren't. Not
    // inlined, so that its loop has the registers to itself.
    #[inline(never)]
    fn pieces_number(&self, cells: &[Cell], origin: Origin, from: u64) -> Option<u64>
        requires { from + 8 ≤ 2 ^ 47 }
        ensures number { IfSome result (λ number. Some number ≡ number_if (range_in self.now cells.now from 8)) }
        ensures pieces { IfSome result (λ number. acts.are_pieces (prov_numbered self.now.origins origin.number) 0
            (range_in self.now cells.now from 8) ≡ true) }
    {
        let mut number: u64 = 0;
        for step in 0..8u64 {
            let index = 8 - (step + 1);
            let cell = cell_at(cells, from + index);
            if !self.is_piece(cell, origin, index) {
                return None;
            }
            let Some(byte) = cell.value() else {
                return None;
            };
            number = number * 256 + u64::from(byte);
        }
        Some(number)
    }

    fn pointer_in(&self, object: &Object, from: u64) -> Option<Origin>
        requires { from + 8 ≤ 2 ^ 47 }
        ensures { named_in self.now.origins result ≡ acts.pointer_in (bytes_in self.now object.now from 8) }
    {
        let cell = object.cell(from);
        match cell.state {
            State::Unwritten => None,
            State::Plain => None,
            State::Piece => self
                .are_pieces(object.cells(), cell.origin, from, 8)
                .then_some(cell.origin),
        }
    }

    // Whether the bytes are the first pieces of one pointer value with the provenance of this number.
    pub(super) fn are_pieces(&self, cells: &[Cell], number: Origin, from: u64, len: u64) -> bool
        requires { from + len ≤ 2 ^ 47 }
        ensures { result ≡ acts.are_pieces (prov_numbered self.now.origins number.number) 0 (range_in self.now cells.now from len) }
    {
        for index in 0..len {
            if !self.is_piece(cell_at(cells, from + index), number, index) {
                return false;
            }
        }
        true
    }

    // Whether the byte is this piece of a pointer with the provenance of this number.
    #[inline(always)]
    fn is_piece(&self, cell: Cell, number: Origin, index: u64) -> bool
        ensures { result ≡ acts.is_piece (prov_numbered self.now.origins number.number) index (byte_in self.now.origins cell) }
    {
        match cell.state {
            State::Unwritten => false,
            State::Plain => false,
            State::Piece => {
                self.is_made_from(cell.origin, number) && u64::from(cell.piece_index) == index
            }
        }
    }

    // Whether the two numbers are those of one provenance.
    #[inline(always)]
    #[tactic(auto, using(crate::proofs::NumberLemmas::same_numbers))]
    fn is_made_from(&self, origin: Origin, number: Origin) -> bool
        ensures { result ≡ acts.same_prov (prov_numbered self.now.origins origin.number) (prov_numbered self.now.origins number.number) }
    {
        if origin.number == number.number {
            return true;
        }
        self.are_of_one(origin, number)
    }

    // What `is_made_from` does. Not inlined, since few numbers differ.
    #[inline(never)]
    fn are_of_one(&self, origin: Origin, number: Origin) -> bool
        ensures { result ≡ acts.same_prov (prov_numbered self.now.origins origin.number) (prov_numbered self.now.origins number.number) }
    {
        is_same(self.prov(origin), self.prov(number))
    }

    // What a byte that is a piece of a pointer was made from.
    pub(super) fn origin_in(&self, cell: Cell) -> Option<Prov>
        ensures value { result ≡ acts.origin_in (byte_in self.now.origins cell) }
        ensures numbered { IfSome result (λ prov. prov_numbered self.now.origins cell.origin.number ≡ prov) }
    {
        match cell.state {
            State::Unwritten => None,
            State::Plain => None,
            State::Piece => Some(self.prov(cell.origin)),
        }
    }

    // The provenance of a pointer that is loaded, by the number of that of its pieces, if any: it isn't loaded where its candidates are dead,
    // and a number is looked up.
    #[inline(always)]
    fn resolved(
        &mut self,
        pointer: Option<Origin>,
        who: Event,
        number: u64,
        t: &mut Touched,
    ) -> Result<Prov, MemFault>
        ensures exact { IfOk result (λ prov. (io : Io) → run self.old.rows (acts.pointer_or_number who (named_in self.old.origins pointer) number)
            (store_of self.old io) ≡ Done (number, prov) (pointer_items (named_in self.old.origins pointer) number) (store_of self.old io)) }
        ensures raises { IfErr result (λ fault. IfRaise fault (λ c. (io : Io) →
            run self.old.rows (acts.pointer_or_number who (named_in self.old.origins pointer) number) (store_of self.old io) ≡ Raised c)) }
        ensures same { IfErr result (λ fault. IfRaise fault (λ c. self.new ≡ self.old)) }
        ensures items { OnOk result (length t.old + 1 < 32 → t.new ≡ t.old ++ pointer_items (named_in self.old.origins pointer) number) }
        ensures more { HasMore self.old self.new }
        ensures value { IfOk result (λ prov. IfSome (named_in self.old.origins pointer) (λ p. IsMade self.old p) → IsMade self.new prov) }
        ensures sound { IsSound self.old → IsSound self.new }
        ensures kept { Keeps self.old self.new }
    {
        let Some(origin) = pointer else {
            let prov = self.look_up(who, number, t)?;
            return Ok(prov);
        };
        let prov = self.prov(origin);
        note_alive(prov, t);
        if self.is_dead(prov) {
            return Err(MemFault::Raise(Clause::DeadObject));
        }
        Ok(prov)
    }

    fn is_live(&self, name: ObjName) -> bool
        ensures { result ≡ is_live (life_in (held_of self.now.objects name)) }
    {
        match self.seek(name) {
            None => false,
            Some(object) => object.state().live,
        }
    }

    // Whether there are candidates and all of them are dead.
    fn is_dead(&self, prov: Prov) -> bool
        ensures { (io : Io) → result ≡ is_dead_in (store_of self.now io) prov }
    {
        match prov {
            Prov::Empty => false,
            Prov::Whole(name) => !self.is_live(name),
            Prov::Either { past, start, .. } => !self.is_live(past) && !self.is_live(start),
        }
    }
}

/// Notes that a range was read.
#[inline(always)]
pub(super) fn note_read(found: Accessed, len: u64, t: &mut Touched)
    ensures { length t.old < 32 → t.new ≡ t.old ++ Read found.name found.from len ∷ [] }
{
    t.note(Item::Read {
        object: found.name,
        from: found.from,
        len,
    });
}

/// Notes that the lives of the candidates were asked for.
fn note_alive(prov: Prov, t: &mut Touched)
    ensures { length t.old + 1 < 32 → t.new ≡ t.old ++ map Alive (candidates prov) }
{
    match prov {
        Prov::Empty => {}
        Prov::Whole(name) => t.note(Item::Alive(name)),
        Prov::Either { past, start, .. } => {
            t.note(Item::Alive(past));
            t.note(Item::Alive(start));
        }
    }
}

fn is_same_event(id: Event, other: Event) -> bool
    ensures { result ≡ same_event id other }
{
    id == other
}

fn are_same(past: ObjName, other_past: ObjName, start: ObjName, other_start: ObjName) -> bool
    ensures { result ≡ (same_object past other_past && same_object start other_start) }
{
    past == other_past && start == other_start
}

/// Whether the two have the same candidates under the same name.
fn is_same(a: Prov, b: Prov) -> bool
    ensures { result ≡ acts.same_prov a b }
{
    match a {
        Prov::Empty => match b {
            Prov::Empty => true,
            Prov::Whole(_) => false,
            Prov::Either { .. } => false,
        },
        Prov::Whole(name) => match b {
            Prov::Empty => false,
            Prov::Whole(other) => name == other,
            Prov::Either { .. } => false,
        },
        Prov::Either { id, past, start } => match b {
            Prov::Empty => false,
            Prov::Whole(_) => false,
            Prov::Either {
                id: other,
                past: other_past,
                start: other_start,
            } => is_same_event(id, other) && are_same(past, other_past, start, other_start),
        },
    }
}

/// Whether it is `_Bool`.
pub(super) fn is_bool(kind: IntKind) -> bool
    ensures { result ≡ (agreement.number_of_kind kind == 1) }
{
    matches!(kind, IntKind::Bool)
}

/// A number other than 0 and 1 is none of `_Bool` (6.2.6.1p5), and a byte that isn't written has none.
pub(super) fn number_checked(is_bool: bool, number: Option<u64>) -> Result<u64, Clause>
    ensures { result ≡ loads.number_checked is_bool number }
{
    let Some(number) = number else {
        return Err(Clause::Indeterminate);
    };
    if is_bool && number > 1 {
        return Err(Clause::TrapRepresentation);
    }
    Ok(number)
}

/// The little-endian number of a range of at most eight bytes, where all are written.
pub(super) fn number_at(cells: &[Cell], from: u64, len: u64) -> Option<u64>
    requires range { from + len ≤ 2 ^ 47 }
    requires short { len ≤ 8 }
    ensures { (m : Kept) → result ≡ number_if (range_in m cells.now from len) }
{
    let mut number: u64 = 0;
    for step in 0..len {
        let cell = cell_at(cells, from + (len - (step + 1)));
        let Some(byte) = cell.value() else {
            return None;
        };
        number = number * 256 + u64::from(byte);
    }
    Some(number)
}

/// The little-endian number of a range of at most eight bytes, where all are written, and whether none of them is a piece of a pointer.
#[inline(always)]
fn seen_at(cells: &[Cell], from: u64, len: u64) -> (Option<u64>, bool)
    requires range { from + len ≤ 2 ^ 47 }
    requires short { len ≤ 8 }
    ensures number { (m : Kept) → result.0 ≡ number_if (range_in m cells.now from len) }
    ensures plain { result.1 ≡ true → (m : Kept) → origins_of (range_in m cells.now from len) ≡ [] }
{
    let mut number: u64 = 0;
    let mut plain = true;
    for step in 0..len {
        let cell = cell_at(cells, from + (len - (step + 1)));
        let Some(byte) = cell.value() else {
            return (None, false);
        };
        let still = stays_plain(plain, cell);
        plain = still;
        number = number * 256 + u64::from(byte);
    }
    (Some(number), plain)
}

#[inline(always)]
fn stays_plain(plain: bool, cell: Cell) -> bool
    ensures { result ≡ true → (plain ≡ true) × ((ps : List Prov) → origins_in (byte_in ps cell) ≡ []) }
{
    plain && !is_pointer_piece(cell)
}

#[inline(always)]
fn is_pointer_piece(cell: Cell) -> bool
    ensures { result ≡ false → (ps : List Prov) → origins_in (byte_in ps cell) ≡ [] }
{
    match cell.state {
        State::Unwritten => false,
        State::Plain => false,
        State::Piece => true,
    }
}

/// Whether an access of the type suits an object of this shape.
#[inline(always)]
pub(super) fn fits_shape(shape: &Shape, ty: &Ty, from: u64) -> bool
    ensures { result ≡ suits_form (type_of ty.now) (form_of shape.now) from }
{
    if is_of_kind(shape, ty, from) {
        return true;
    }
    shape.suits(ty, from)
}

/// Whether the scalar that begins there is of that very type, an integer type or a pointer to one, as most are: the object, or one of its elements.
#[inline(always)]
fn is_of_kind(shape: &Shape, ty: &Ty, from: u64) -> bool
    ensures { result ≡ true → suits_form (type_of ty.now) (form_of shape.now) from ≡ true }
{
    match shape {
        Shape::Leaf(leaf) => from == 0 && is_same_kind(ty, leaf),
        Shape::Repeat { count, step, part } => {
            *step != 0 && from / *step < *count && is_leaf_of_kind(part.get(), ty, from % *step)
        }
        Shape::Parts(_) => false,
    }
}

#[inline(always)]
fn is_leaf_of_kind(shape: &Shape, ty: &Ty, from: u64) -> bool
    ensures { result ≡ true → leaf_agrees (type_of ty.now) (form_of shape.now) from ≡ true }
{
    match shape {
        Shape::Leaf(leaf) => from == 0 && is_same_kind(ty, leaf),
        _ => false,
    }
}

#[inline(always)]
fn is_same_kind(ty: &Ty, leaf: &Ty) -> bool
    ensures { result ≡ true → agrees (type_of ty.now) (type_of leaf.now) ≡ true }
{
    match ty {
        Ty::Int(kind) => match leaf {
            Ty::Int(other) => kind == other,
            _ => false,
        },
        Ty::Pointer(target) => match leaf {
            Ty::Pointer(other) => are_alike(target.get(), other.get()),
            _ => false,
        },
        _ => false,
    }
}

/// Whether both are the same integer type with the same qualifier, so that pointers to them are compatible (6.7.6.1p2).
#[inline(always)]
#[tactic(auto, using(crate::proofs::AgreementLemmas::pointers_agree))]
fn are_alike(target: &Qual, other: &Qual) -> bool
    ensures { result ≡ true → agrees (pointer (qualified_of target.now).constant (qualified_of target.now).ty)
        (pointer (qualified_of other.now).constant (qualified_of other.now).ty) ≡ true }
{
    target.constant == other.constant && are_of_kind(&target.ty, &other.ty)
}

#[inline(always)]
fn are_of_kind(ty: &Ty, other: &Ty) -> bool
    ensures { result ≡ true → matches true (type_of ty.now) (type_of other.now) ≡ true }
{
    match ty {
        Ty::Int(kind) => match other {
            Ty::Int(found) => kind == found,
            _ => false,
        },
        _ => false,
    }
}

/// Whether the tag is that of this byte of a scalar of the type, with which the access agrees.
fn fits_tag(ty: &Ty, known: &Ty, tag_index: u8, index: u64) -> bool
    ensures { result ≡ (tag_index == index && agrees (type_of ty.now) (type_of known.now)) }
{
    u64::from(tag_index) == index && agrees(ty, known)
}
