// Provenances by their numbers.
ghost use Rattle.std.specs.Prelude.{◌≡◌, ◌+◌, ◌++◌, ◌∷◌, [], None, true, List, length, IfOk, IfSome, OnOk, OnErr};
ghost use Rattle.ub_base.specs.declared.names.ObjName.{ObjName};
ghost use Rattle.exposure.specs.declared.prov.Prov.{Prov};
ghost use Rattle.mem_objects.specs.Cells.{prov_numbered};
ghost use Rattle.exposure.specs.declared.prov.Prov.TheVariants.{Whole, Either};
ghost use Rattle.mem_objects.specs.Made.{is_ambiguous, HasNumber, Extends, IsMade};
ghost use Rattle.mem_objects.specs.Memory.{Kept};
ghost use Rattle.mem_objects.specs.Sound.{AllMade};

use crate::Origin;
use exposure::Prov;
use std::alloc::Global;
use std::collections::BTreeMap;
use std::marker::Model;
use ub_base::{Event, NoMemory, ObjName};

/// The provenances that pieces of pointers name by number: 1, 2 and so on. Seen as their list.
#[derive(Drop)]
pub struct Origins {
    list: Vec<Prov>,
    // the numbers of the ambiguities among them; an object has its own
    numbers: BTreeMap<Prov, u32>,
}

impl Model for Origins {
    ghost use Rattle.std.specs.Prelude.{List};
    ghost use Rattle.exposure.specs.declared.prov.Prov.{Prov};
    ghost use Rattle.mem_objects.specs.Made.{AreNumbered};

    ghost Value = { List Prov };

    ghost view = { λ o. o.list.items };

    ghost invariant = { λ o. AreNumbered o.numbers o.list.items };
}

impl Origins {
    /// Without provenances.
    pub fn new(alloc: Global) -> Origins
        ensures { result ≡ [] }
    {
        Origins {
            list: Vec::new(alloc),
            numbers: BTreeMap::new(alloc),
        }
    }

    /// The provenance of this number, the empty one where there is none.
    pub fn prov(&self, origin: Origin) -> Prov
        ensures { result ≡ prov_numbered self.now origin.number }
    {
        if origin.number == 0 {
            return Prov::Empty;
        }
        self.list
            .get(origin.number as usize - 1)
            .copied()
            .unwrap_or(Prov::Empty)
    }

    /// The number of an ambiguity.
    pub fn number(&self, prov: Prov) -> Option<u32>
        ensures some { IfSome result (λ n. prov_numbered self.now n ≡ prov) }
        ensures none { result ≡ None → is_ambiguous prov ≡ true → HasNumber self.now prov → ⊥ }
    {
        self.numbers.get(&prov).copied()
    }

    /// The number that a new provenance gets.
    fn next(&self) -> Result<u32, NoMemory>
        ensures { IfOk result (λ n. n ≡ length self.now + 1) }
    {
        u32::try_from(self.list.len().saturating_add(1)).map_err(|_| NoMemory)
    }

    /// Gives a new object's provenance the next number.
    pub fn add_object(&mut self, name: ObjName) -> Result<Origin, NoMemory>
        ensures number { IfOk result (λ origin. origin.number ≡ length self.old + 1) }
        ensures ok { OnOk result (self.new ≡ self.old ++ Whole name ∷ []) }
        ensures err { OnErr result (self.new ≡ self.old) }
    {
        let number = self.next()?;
        self.list.push(Prov::Whole(name))?;
        Ok(Origin { number })
    }

    /// Takes the number of the last object's provenance back.
    pub fn drop_object(&mut self)
        requires { (ps : List Prov) × (x : ObjName) × (self.old ≡ ps ++ Whole x ∷ []) }
        ensures { (ps : List Prov) (x : ObjName) → self.old ≡ ps ++ Whole x ∷ [] → self.new ≡ ps }
    {
        let _ = self.list.pop();
    }

    /// Gives an ambiguity a number, where it has none.
    pub fn add_ambiguity(
        &mut self,
        id: Event,
        past: ObjName,
        start: ObjName,
    ) -> Result<(), NoMemory>
        ensures number { OnOk result (HasNumber self.new (Either id past start)) }
        ensures more { Extends self.old self.new }
        ensures each { (m : Kept) → IsMade m (Either id past start) → AllMade m self.old → AllMade m self.new }
        ensures err { OnErr result (self.new ≡ self.old) }
    {
        let prov = Prov::Either { id, past, start };
        if self.number(prov).is_some() {
            return Ok(());
        }
        let number = self.next()?;
        self.list.reserve(1)?;
        self.numbers.insert(prov, number)?;
        self.list.push_reserved(prov);
        Ok(())
    }
}
