// What acts, events and blocks name by numbers.
ghost use Rattle.std.specs.Prelude.{length};
ghost use Rattle.std.specs.List.{All};
ghost use Rattle.run_layout.specs.InRange.{IsChoice, IsObject, IsBlock};

use crate::numbers::{next_number, range_from};
use crate::steps::{BlockCode, CallCode, Choice, ObjectCode, Range, StoreCode};
use c_typed::Constant;
use std::alloc::Global;
use ub_base::NoMemory;

/// What acts, events and blocks name by numbers. What one table names in another is there.
#[derive(Drop)]
pub struct Tables<'p> {
    pub calls: Vec<CallCode<'p>>,
    pub stores: Vec<StoreCode<'p>>,
    /// The constant bytes of initializer lists.
    pub constants: Vec<&'p [Constant]>,
    /// The operands that nodes choose at once with a choice.
    pub chosen: Vec<(u32, u32)>,
    pub choices: Vec<Choice>,
    pub objects: Vec<ObjectCode>,
    pub blocks: Vec<BlockCode>,
    pub ghost chosen_there: { All (IsChoice (length chosen.items)) choices.items },
    pub ghost stores_there: { All (IsObject (length stores.items)) objects.items },
    pub ghost objects_there: { All (IsBlock (length objects.items)) blocks.items },
}

impl<'p> Tables<'p> {
    ghost use Rattle.std.specs.Prelude.{◌≡◌, ◌<◌, ◌≤◌, ◌^◌, [], ◌∷◌, ◌++◌, Some, slice_get, IfOk, OnOk};
    ghost use Rattle.run_layout.specs.InRange.{IsRange};
    ghost use Rattle.run_layout.specs.AtOnce.{Lists};
    ghost use Rattle.run_layout.specs.EventActs.{AreGrown};
    ghost use Rattle.c_typed.specs.declared.program.Program.{Program as ProgramOf};
    ghost use Rattle.run_layout.specs.Fitting.{AreFit, AreLawful, StoreFits};

    pub fn new(alloc: Global) -> Self
        ensures fit { (p : ProgramOf) → AreFit p result }
    {
        Tables {
            calls: Vec::new(alloc),
            stores: Vec::new(alloc),
            constants: Vec::new(alloc),
            chosen: Vec::new(alloc),
            choices: Vec::new(alloc),
            objects: Vec::new(alloc),
            blocks: Vec::new(alloc),
        }
    }

    // Gives its number.
    pub fn add_store(&mut self, store: StoreCode<'p>) -> Result<u32, NoMemory>
        ensures at { IfOk result (λ n. slice_get self.new.stores.items n ≡ Some store.entry) }
        ensures grown { AreGrown self.old self.new }
        ensures fit { (p : ProgramOf) → StoreFits store.entry → AreFit p self.old → AreFit p self.new }
        ensures objects { self.new.objects.items ≡ self.old.objects.items }
        ensures blocks { self.new.blocks.items ≡ self.old.blocks.items }
    {
        let number = next_number(&self.stores)?;
        self.stores.push(store)?;
        Ok(number)
    }

    pub fn add_call(&mut self, call: CallCode<'p>) -> Result<u32, NoMemory>
        ensures at { IfOk result (λ n. slice_get self.new.calls.items n ≡ Some call.entry) }
        ensures grown { AreGrown self.old self.new }
        ensures fit { (p : ProgramOf) → AreFit p self.old → AreFit p self.new }
    {
        let number = next_number(&self.calls)?;
        self.calls.push(call)?;
        Ok(number)
    }

    pub fn add_constants(&mut self, constants: &'p [Constant]) -> Result<u32, NoMemory>
        ensures at { IfOk result (λ n. slice_get self.new.constants.items n ≡ Some constants.entry) }
        ensures grown { AreGrown self.old self.new }
        ensures fit { (p : ProgramOf) → AreLawful p constants.now → AreFit p self.old → AreFit p self.new }
    {
        let number = next_number(&self.constants)?;
        self.constants.push(constants)?;
        Ok(number)
    }

    // Gives the range of these.
    pub fn add_chosen(&mut self, chosen: &[(u32, u32)]) -> Result<Range, NoMemory>
        ensures within { IfOk result (IsRange (length self.new.chosen.items)) }
        ensures lists { IfOk result (λ r. Lists self.new.chosen.items r chosen.now) }
        ensures grown { AreGrown self.old self.new }
        ensures fit { (p : ProgramOf) → AreFit p self.old → AreFit p self.new }
    {
        let first = next_number(&self.chosen)?;
        self.chosen.extend_from_slice(chosen)?;
        range_from(&self.chosen, first)
    }

    pub fn add_choice(&mut self, choice: Choice) -> Result<u32, NoMemory>
        requires { IsChoice (length self.old.chosen.items) choice }
        ensures at { IfOk result (λ n. slice_get self.new.choices.items n ≡ Some choice) }
        ensures grown { AreGrown self.old self.new }
        ensures fit { (p : ProgramOf) → AreFit p self.old → AreFit p self.new }
    {
        let number = next_number(&self.choices)?;
        self.choices.push(choice)?;
        Ok(number)
    }

    pub fn add_object(&mut self, object: ObjectCode) -> Result<(), NoMemory>
        requires { IsObject (length self.old.stores.items) object }
        ensures grown { AreGrown self.old self.new }
        ensures fit { (p : ProgramOf) → AreFit p self.old → AreFit p self.new }
        ensures added { OnOk result (self.new.objects.items ≡ self.old.objects.items ++ object ∷ []) }
        ensures stores { self.new.stores.items ≡ self.old.stores.items }
        ensures blocks { self.new.blocks.items ≡ self.old.blocks.items }
    {
        self.objects.push(object)?;
        Ok(())
    }

    pub fn add_block(&mut self, block: BlockCode) -> Result<(), NoMemory>
        requires { IsBlock (length self.old.objects.items) block }
        ensures grown { AreGrown self.old self.new }
        ensures fit { (p : ProgramOf) → AreFit p self.old → AreFit p self.new }
        ensures added { OnOk result (self.new.blocks.items ≡ self.old.blocks.items ++ block ∷ []) }
        ensures few { OnOk result (length self.old.blocks.items < 2 ^ 32) }
        ensures objects { self.new.objects.items ≡ self.old.objects.items }
    {
        let _number = next_number(&self.blocks)?;
        self.blocks.push(block)?;
        Ok(())
    }
}
