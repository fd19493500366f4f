// Objects by their names.
ghost use Rattle.std.specs.Prelude.{◌≡◌, ◌<◌, ◌++◌, ◌∷◌, [], None, Some, List, true, length, slice_get, IfSome, OnOk, OnErr};
ghost use Rattle.std.specs.Option.{option_and_then, option_copied};
ghost use Rattle.addr_map.specs.declared.map.Row.{Row};
ghost use Rattle.mem_objects.specs.Memory.{HaveRows};
ghost use Rattle.mem_objects.specs.Held.{Held, Fits, FallsIn, IsWritten, held_of, changed, name_at, emptied, killed, uncovered, holding};

use crate::Via;
use crate::cell::Cell;
use crate::object::Object;
use std::alloc::Global;
use std::collections::HashMap;
use std::marker::Model;
use ub_base::{NoMemory, ObjName};

/// The objects of a memory in the order of their creation. A look-up costs one of `recent`, and where that fails one in
/// `indices`.
#[derive(Drop)]
pub struct Objects {
    list: Vec<Object>,
    indices: HashMap<ObjName, usize>,
    recent: [usize; 384],
}

impl Model for Objects {
    ghost use Rattle.std.specs.Coded.{codes};
    ghost use Rattle.c_types.specs.contracts.shape.Shape as shape;
    ghost use Rattle.std.specs.Prelude.{List};
    ghost use Rattle.std.specs.HashMap as hash;
    ghost use Rattle.addr_map.specs.Sound.{object_eq};
    ghost use Rattle.mem_objects.specs.Held.{Held, IsIndexed};

    ghost Value = { List Held };

    ghost coded = { Prim.hlevel (codes, shape.the_row.coded) };

    ghost view = { λ o. o.list.items };

    ghost invariant = { λ o. IsIndexed (hash.get object_eq o.indices) o.list.items };
}

/// Where a name is looked for first: automatic objects, those of the heap and all others each have places of their own, so that the many of
/// one kind don't hide the few of another.
#[inline(always)]
fn slot_of(name: ObjName) -> usize
    ensures { result < 384 }
{
    match name {
        ObjName::Static(k) => 256 + place_of(k),
        ObjName::Lit(k) => 256 + place_of(k.wrapping_add(64)),
        ObjName::Argv => 383,
        ObjName::Arg(k) => 256 + place_of(k.wrapping_add(96)),
        ObjName::Auto { frame, turn, decl } => place_of(mixed(frame.0, turn, decl)),
        ObjName::Heap { frame, turn, node } => 128 + place_of(mixed(frame.0, turn, node)),
    }
}

#[inline(always)]
fn mixed(frame: u32, turn: u64, number: u32) -> u32 {
    number
        .wrapping_add((turn & 0xff) as u32)
        .wrapping_add(frame.wrapping_mul(7))
}

#[inline(always)]
fn place_of(mixed: u32) -> usize
    ensures { result < 128 }
{
    (mixed % 128) as usize
}

impl Objects {
    /// Without objects.
    pub fn new(alloc: Global) -> Objects
        ensures { result ≡ [] }
    {
        Objects {
            list: Vec::new(alloc),
            indices: HashMap::new(alloc),
            recent: [0; 384],
        }
    }

    /// The object at the place.
    #[inline(always)]
    pub fn get(&self, at: usize) -> Option<&Object>
        ensures object { option_copied result ≡ slice_get self.now at }
        ensures fit { IfSome result (λ object. Fits object.now) }
    {
        let _invariant = &self.indices;
        self.item(at)
    }

    #[inline(always)]
    fn item(&self, at: usize) -> Option<&Object>
        ensures { option_copied result ≡ slice_get self.now at }
    {
        self.list.get(at)
    }

    #[inline(always)]
    fn is_at(&self, at: usize, name: ObjName) -> bool
        ensures { result ≡ true → name_at self.now at ≡ Some name }
    {
        match self.list.get(at) {
            None => false,
            Some(object) => object.name == name,
        }
    }

    // The place of the object of that name by the index. Not inlined, since most places are remembered.
    #[inline(never)]
    fn indexed(&self, name: ObjName) -> Option<usize>
        ensures some { IfSome result (λ at. name_at self.now at ≡ Some name) }
        ensures object { held_of self.now name ≡ option_and_then (λ at. slice_get self.now at) result }
    {
        self.indices.get(&name).copied()
    }

    /// The place of the object of that name.
    #[inline(always)]
    pub fn find(&mut self, name: ObjName) -> Option<usize>
        ensures same { self.new ≡ self.old }
        ensures some { IfSome result (λ at. name_at self.old at ≡ Some name) }
        ensures object { held_of self.old name ≡ option_and_then (λ at. slice_get self.old at) result }
    {
        let slot = slot_of(name);
        let guess = self.recent[slot];
        if self.is_at(guess, name) {
            return Some(guess);
        }
        let at = self.indexed(name)?;
        self.recent[slot] = at;
        Some(at)
    }

    /// The object of that name.
    pub fn seek(&self, name: ObjName) -> Option<&Object>
        ensures object { option_copied result ≡ held_of self.now name }
        ensures fit { IfSome result (λ object. Fits object.now) }
    {
        let guess = self.recent[slot_of(name)];
        if self.is_at(guess, name) {
            return self.get(guess);
        }
        match self.indexed(name) {
            None => None,
            Some(at) => self.get(at),
        }
    }

    /// Adds an object of a new name.
    pub fn add(&mut self, object: Object) -> Result<(), NoMemory>
        requires { held_of self.old object.name ≡ None }
        ensures ok { OnOk result (self.new ≡ self.old ++ object ∷ []) }
        ensures err { OnErr result (self.new ≡ self.old) }
    {
        self.list.reserve(1)?;
        self.indices.insert(object.name, self.list.len())?;
        self.recent[slot_of(object.name)] = self.list.len();
        self.list.push_reserved(object);
        Ok(())
    }

    /// The bytes of the object become unwritten, where it is there.
    pub fn unwrite(&mut self, name: ObjName)
        ensures { self.new ≡ changed emptied name self.old }
    {
        if let Some(at) = self.find(name) {
            let object = &mut self.list[at];
            object.unwrite();
        }
    }

    /// The object dies, where it is there.
    pub fn kill(&mut self, name: ObjName, alloc: Global)
        ensures { self.new ≡ changed killed name self.old }
    {
        if let Some(at) = self.find(name) {
            let object = &mut self.list[at];
            object.die(alloc);
        }
    }

    /// The object becomes exposed, where it is there.
    pub fn expose(&mut self, name: ObjName)
        ensures { self.new ≡ changed uncovered name self.old }
    {
        if let Some(at) = self.find(name) {
            let object = &mut self.list[at];
            object.expose();
        }
    }

    /// Writes bytes into a range of the object at the place.
    pub fn write(&mut self, at: usize, from: u64, via: Via, cells: &[Cell])
        requires { FallsIn self.old at from (length cells.now) }
        ensures rows { (rows : List Row) → HaveRows rows self.old → HaveRows rows self.new }
        ensures written { (h : Held) → slice_get self.old at ≡ Some h → (g : Held) × (self.new ≡ changed (holding g.cells) h.name self.old)
            × IsWritten h g from via cells.now }
    {
        if at < self.list.len() {
            let object = &mut self.list[at];
            object.write(from, via, cells);
        }
    }
}
