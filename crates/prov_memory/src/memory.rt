// The memory.
ghost use Rattle.std.specs.Prelude.{◌≡◌, ◌≤◌, [], Some, true, not, length, slice_get, IfSome};
ghost use Rattle.std.specs.Option.{option_and_then, option_copied};
ghost use Rattle.std.specs.Bool.{OnTrue, OnFalse};
ghost use Rattle.exposure.specs.Cells.{kept_in, has_cell, is_other, Settles};
ghost use Rattle.mem_spec.specs.Store.{settled};
ghost use Rattle.mem_spec.specs.Streams.{Io};
ghost use Rattle.mem_objects.specs.Cells.{prov_numbered};
ghost use Rattle.mem_objects.specs.Held.{Fits, held_of, name_at};
ghost use Rattle.mem_objects.specs.Memory.{Kept, empty, store_of, state_in, byte_in_object};
ghost use Rattle.mem_objects.specs.Made.{AreNamed, IsMade};
ghost use Rattle.mem_objects.specs.Keeps.{Keeps};
ghost use Rattle.mem_objects.specs.Sound.{IsSound};
ghost use Rattle.mem_objects.specs.Room.{IsClose};
ghost use Rattle.mem_objects.specs.Tags.{AreTagged};

mod access;
mod arith;
mod load;
mod map;
mod parts;
mod store;
mod tags;
mod whole;

use crate::{CreateFault, MemByte, ObjKind, ObjState, Origin, Touched, TypeId};
use addr_map::{AddrMap, Mode};
use c_types::{Shape, Ty};
use exposure::{Narrowed, Prov};
use mem_objects::{Cell, Object, Objects, Origins, types};
use std::alloc::Global;
use std::marker::Model;
use std::rc::Rc;
use ub_base::{Event, Item, NoMemory, ObjName};

/// The objects of a run, with their address map. A scalar access costs a look-up of its object.
#[derive(Drop)]
pub struct Memory {
    alloc: Global,
    // how objects without a row are placed
    mode: Option<Mode>,
    map: AddrMap,
    objects: Objects,
    origins: Origins,
    narrowed: Narrowed,
    // the types of numbers 13, 14 ..
    types: Vec<Ty>,
    created: u64,
}

impl Model for Memory {
    ghost use Rattle.std.specs.Coded.{codes};
    ghost use Rattle.c_types.specs.contracts.ty.Ty as ty;
    ghost use Rattle.c_types.specs.contracts.shape.Shape as shape;
    ghost use Rattle.mem_objects.specs.Memory.{Kept, HaveRows};

    ghost Value = { Kept };

    ghost coded = { Prim.hlevel (codes, ty.the_row.coded, shape.the_row.coded) };

    ghost view = { λ m. record {
      objects = m.objects;
      rows = m.map;
      origins = m.origins;
      cells = m.narrowed;
      types = m.types.items;
      created = m.created;
      mode = m.mode;
    } };

    ghost invariant = { λ m. HaveRows m.map m.objects };
}

impl Memory {
    /// Without objects; each new one is placed by the mode.
    pub fn new(alloc: Global, mode: Mode) -> Memory
        ensures empty { result ≡ empty [] (Some mode) }
        ensures sound { IsSound result }
        ensures tagged { AreTagged result }
        ensures close { IsClose result }
    {
        Memory::with(alloc, AddrMap::new(alloc), Some(mode))
    }

    /// Without objects; each new one stands at its row, and one without a row is placed where `rest` has a mode.
    pub fn with_map(alloc: Global, map: AddrMap, rest: Option<Mode>) -> Memory
        ensures empty { result ≡ empty map rest }
        ensures sound { IsSound result }
        ensures tagged { AreTagged result }
    {
        Memory::with(alloc, map, rest)
    }

    fn with(alloc: Global, map: AddrMap, mode: Option<Mode>) -> Memory
        ensures { result ≡ empty map mode }
    {
        Memory {
            alloc,
            mode,
            map,
            objects: Objects::new(alloc),
            origins: Origins::new(alloc),
            narrowed: Narrowed::new(alloc),
            types: Vec::new(alloc),
            created: 0,
        }
    }

    // The object's place in `objects`.
    #[inline(always)]
    fn find(&mut self, name: ObjName) -> Option<usize>
        ensures same { self.new ≡ self.old }
        ensures some { IfSome result (λ at. name_at self.old.objects at ≡ Some name) }
        ensures object { held_of self.old.objects name ≡ option_and_then (λ at. slice_get self.old.objects at) result }
    {
        self.objects.find(name)
    }

    fn seek(&self, name: ObjName) -> Option<&Object>
        ensures object { option_copied result ≡ held_of self.now.objects name }
        ensures fit { IfSome result (λ object. Fits object.now) }
    {
        self.objects.seek(name)
    }

    /// The map with the rows of all objects.
    pub fn map(&self) -> &AddrMap
        ensures { result.now ≡ self.now.rows }
    {
        &self.map
    }

    pub fn into_map(self) -> AddrMap
        ensures { result ≡ self.rows }
    {
        let Memory {
            alloc: _,
            mode: _,
            map,
            objects: _,
            origins: _,
            narrowed: _,
            types: _,
            created: _,
        } = self;
        map
    }

    /// The sum of the sizes of all objects that were created, each counted as at least 16, and at most 2^62; that much where memory
    /// was wanted for an object that has its row.
    pub fn created(&self) -> u64
        ensures { result ≡ self.now.created }
    {
        self.created
    }

    /// None where the object wasn't created.
    pub fn object(&self, name: ObjName) -> Option<ObjState>
        ensures { result ≡ state_in (held_of self.now.objects name) }
    {
        let object = self.seek(name)?;
        Some(object.state())
    }

    /// A byte of an object, unwritten past its end and where it wasn't created.
    pub fn byte(&self, name: ObjName, at: u64) -> MemByte
        ensures { result ≡ byte_in_object (held_of self.now.objects name) at }
    {
        match self.seek(name) {
            None => MemByte::Unwritten,
            Some(object) => object.byte(at),
        }
    }

    /// The object to which the ambiguity was settled.
    pub fn kept(&self, id: Event) -> Option<ObjName>
        ensures { result ≡ kept_in self.now.cells id }
    {
        self.narrowed.kept(id)
    }

    /// Settles an ambiguity without an access: false, unchanged, where it was settled to another object.
    pub fn narrow(&mut self, id: Event, keep: ObjName) -> bool
        ensures answer { result ≡ not (is_other (kept_in self.old.cells id) keep) }
        ensures settled { OnTrue result (Settles self.old.cells self.new.cells id keep) }
        ensures unchanged { OnFalse result (self.new ≡ self.old) }
        ensures store { has_cell self.old.cells id ≡ true → OnTrue result ((io : Io) → store_of self.new io ≡ settled (store_of self.old io) id keep) }
        ensures rest { record self.new { cells = [] } ≡ record self.old { cells = [] } }
        ensures made { (p : Prov) → IsMade self.old p → IsMade self.new p }
        ensures sound { IsSound self.old → IsSound self.new }
        ensures kept { Keeps self.old self.new }
    {
        self.narrowed.narrow(id, keep)
    }

    /// The provenance of this number, the empty one where there is none.
    pub fn prov(&self, origin: Origin) -> Prov
        ensures { result ≡ prov_numbered self.now.origins origin.number }
    {
        self.origins.prov(origin)
    }

    // The number of a provenance that was made in this memory, the empty one's for another.
    fn origin_of(&self, prov: Prov) -> Origin
        ensures prov { AreNamed self.now → IsMade self.now prov → prov_numbered self.now.origins result.number ≡ prov }
        ensures number { AreNamed self.now → IsMade self.now prov → result.number ≤ length self.now.origins }
    {
        match prov {
            Prov::Empty => Origin::EMPTY,
            Prov::Whole(name) => match self.seek(name) {
                None => Origin::EMPTY,
                Some(object) => object.origin(),
            },
            Prov::Either { .. } => Origin {
                number: self.origins.number(prov).unwrap_or(0),
            },
        }
    }
}
