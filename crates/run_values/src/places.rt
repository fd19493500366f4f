// Where objects stand before a run.
ghost use Rattle.std.specs.Prelude.{◌≡◌, [], ℕ, Some, slice_get};
ghost use Rattle.ub_base.specs.declared.names.ObjName.{ObjName};
ghost use Rattle.ub_base.specs.declared.names.ObjName.TheVariants as names;
ghost use Rattle.exposure.specs.declared.prov.Prov.TheVariants.{Whole};
ghost use Rattle.c_model.specs.Values.{address_after};
ghost use Rattle.run_values.specs.Views.{pointer_at};

use crate::values::{Pointer, pointer_to};
use std::alloc::Global;
use ub_base::{Items, ObjName};

/// Where the objects with static storage and the string literals stand, by number.
#[derive(Drop)]
pub struct Places {
    pub objects: Items<u64>,
    pub literals: Items<u64>,
}

impl Places {
    pub fn new(alloc: Global) -> Places
        ensures objects { result.objects ≡ [] }
        ensures literals { result.literals ≡ [] }
    {
        Places {
            objects: Items::new(alloc),
            literals: Items::new(alloc),
        }
    }

    /// A pointer into the object with static storage of this number.
    pub fn object(&self, number: u32, offset: u64) -> Pointer
        ensures { (a : ℕ) → slice_get self.now.objects number ≡ Some a →
            pointer_at result ≡ record { address = address_after a offset; prov = Whole (names.Static number) } }
    {
        match self.objects.get(number as usize) {
            Some(addr) => pointer_to(ObjName::Static(number), *addr, offset),
            None => pointer_to(ObjName::Static(number), 0, offset),
        }
    }

    /// A pointer into the string literal of this number.
    pub fn literal(&self, number: u32, offset: u64) -> Pointer
        ensures { (a : ℕ) → slice_get self.now.literals number ≡ Some a →
            pointer_at result ≡ record { address = address_after a offset; prov = Whole (names.Lit number) } }
    {
        match self.literals.get(number as usize) {
            Some(addr) => pointer_to(ObjName::Lit(number), *addr, offset),
            None => pointer_to(ObjName::Lit(number), 0, offset),
        }
    }
}
