// The tags of bytes.
ghost use Rattle.std.specs.Prelude.{◌≡◌, ℕ, ◌≤◌, ◌+◌, [], Some, None, Ok, length, map, slice_get, option_map, IfOk, IfSome, OnOk};
ghost use Rattle.c_types.specs.Types.{type_of};
ghost use Rattle.c_types.specs.Shapes.{form_of};
ghost use Rattle.mem_spec.specs.Agreement.{read_as_int};
ghost use Rattle.mem_objects.specs.Cells.{tagged_in, type_numbered};
ghost use Rattle.exposure.specs.declared.prov.Prov.{Prov};
ghost use Rattle.mem_objects.specs.Made.{IsMade};
ghost use Rattle.mem_objects.specs.Keeps.{Keeps};
ghost use Rattle.mem_objects.specs.Sound.{IsSound};
ghost use Rattle.mem_objects.specs.Tags.{AddsTypes, IsTagged, retagged_byte};

use super::*;
use crate::TypeId;
use c_types::copied;
use mem_objects::types::{Spanned, kind_id};

impl Memory {
    /// The number of a scalar type, so that tags can name it.
    pub fn type_id(&mut self, ty: &Ty) -> Result<TypeId, NoMemory>
        ensures id { IfOk result (λ id. type_numbered (map type_of self.new.types) id.number ≡ Some (read_as_int (type_of ty.now))) }
        ensures known { IfOk result (λ id. id.number ≤ length self.new.types + 12) }
        ensures listed { (n : ℕ) → type_numbered (map type_of self.old.types) n ≡ Some (read_as_int (type_of ty.now)) → self.new ≡ self.old }
        ensures more { AddsTypes self.old self.new }
        ensures rest { record self.new { types = [] } ≡ record self.old { types = [] } }
        ensures made { (p : Prov) → IsMade self.old p → IsMade self.new p }
        ensures sound { IsSound self.old → IsSound self.new }
        ensures kept { Keeps self.old self.new }
    {
        if let Some(id) = kind_id(ty) {
            return Ok(id);
        }
        if let Some(id) = self.listed_type(ty)? {
            return Ok(id);
        }
        let copy = copied(self.alloc, ty)?;
        self.add_type(copy)
    }

    // The number of a type that stands in the list.
    fn listed_type(&self, ty: &Ty) -> Result<Option<TypeId>, NoMemory>
        ensures some { IfOk result (λ found. IfSome found (λ id. (type_numbered (map type_of self.now.types) id.number ≡ Some (type_of ty.now))
            × (id.number ≤ length self.now.types + 12))) }
        ensures none { result ≡ Ok None → (at : ℕ) → slice_get (map type_of self.now.types) at ≡ Some (type_of ty.now) → ⊥ }
    {
        match types::place_of(self.types.as_slice(), ty) {
            None => Ok(None),
            Some(at) => Ok(Some(types::id_at(at)?)),
        }
    }

    fn add_type(&mut self, ty: Ty) -> Result<TypeId, NoMemory>
        ensures id { IfOk result (λ id. type_numbered (map type_of self.new.types) id.number ≡ Some (type_of ty)) }
        ensures known { IfOk result (λ id. id.number ≤ length self.new.types + 12) }
        ensures more { AddsTypes self.old self.new }
        ensures rest { record self.new { types = [] } ≡ record self.old { types = [] } }
    {
        let id = types::id_at(self.types.len())?;
        self.types.push(ty)?;
        Ok(id)
    }

    // The byte with the tag that the declared type, if any, gives it at its place.
    pub(super) fn retagged(
        &mut self,
        cell: Cell,
        declared: &Option<Rc<Shape>>,
        place: u64,
    ) -> Result<Cell, NoMemory>
        ensures more { AddsTypes self.old self.new }
        ensures rest { record self.new { types = [] } ≡ record self.old { types = [] } }
        ensures byte { IfOk result (λ c. tagged_in self.new.origins (map type_of self.new.types) c ≡ retagged_byte
            (option_map (λ shape. form_of shape.value) declared.now) place (tagged_in self.old.origins (map type_of self.old.types) cell)) }
        ensures known { IfOk result (λ c. IsTagged (length self.old.types) cell → IsTagged (length self.new.types) c) }
        ensures origin { IfOk result (λ c. c.origin ≡ cell.origin) }
    {
        match declared {
            None => Ok(cell),
            Some(shape) => self.tagged_by(cell, shape, place),
        }
    }

    fn tagged_by(&mut self, cell: Cell, shape: &Shape, place: u64) -> Result<Cell, NoMemory>
        ensures more { AddsTypes self.old self.new }
        ensures rest { record self.new { types = [] } ≡ record self.old { types = [] } }
        ensures byte { IfOk result (λ c. tagged_in self.new.origins (map type_of self.new.types) c ≡ retagged_byte (Some (form_of shape.now)) place
            (tagged_in self.old.origins (map type_of self.old.types) cell)) }
        ensures known { IfOk result (λ c. IsTagged (length self.old.types) cell → IsTagged (length self.new.types) c) }
        ensures origin { IfOk result (λ c. c.origin ≡ cell.origin) }
    {
        match types::scalar_at(shape, place) {
            Spanned::None => Ok(cell.tagged(TypeId::NONE, 0)),
            Spanned::Several => Ok(cell.tagged(TypeId::NONE, 0)),
            Spanned::One(ty, index) => {
                let tag = self.type_id(ty)?;
                Ok(cell.tagged(tag, index))
            }
        }
    }
}
