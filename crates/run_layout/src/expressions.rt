// The listings of full expressions, of which each event is that of its node.
ghost use Rattle.std.specs.List.{All};
ghost use Rattle.run_layout.specs.LaidOut.{IsLaidOut};
ghost use Rattle.run_layout.specs.Named.{IsListedOf, IsExpressionOf};

use crate::nodes::NodeInfo;
use crate::steps::{BlockCode, CallCode, Choice, Expression, Listed, ObjectCode, Range, StoreCode};
use crate::tables::Tables;
use c_typed::{Constant, Typed};
use std::alloc::Global;
use ub_base::NoMemory;

/// Full expressions, and their listings one behind the other.
#[derive(Drop)]
pub struct Laid<'p> {
    pub entries: Vec<Listed<'p>>,
    pub all: Vec<Expression<'p>>,
}

/// The full expressions with their listings, and what these name by numbers.
#[derive(Drop)]
pub struct Expressions<'p> {
    pub tables: Tables<'p>,
    pub laid: Laid<'p>,
    pub ghost laid_out: { ∥ All (IsLaidOut tables laid.entries.items) laid.all.items ∥₁ },
    pub ghost named: { All (IsListedOf tables) laid.entries.items },
    pub ghost within: { All (IsExpressionOf tables laid.entries.items) laid.all.items },
}

impl<'p> Expressions<'p> {
    ghost use Rattle.std.specs.Prelude.{◌≡◌, ◌<◌, ◌^◌, ℕ, suc, List, [], ◌∷◌, ◌++◌, Some, length, slice_get, IfOk, OnOk};
    ghost use Rattle.run_layout.specs.Roots.{roots_in};
    ghost use Rattle.run_layout.specs.Numbered.{AreNodes};
    ghost use Rattle.run_layout.specs.InRange.{IsRange, IsChoice, IsObject, IsBlock};
    ghost use Rattle.run_layout.specs.AtOnce.{chosen_of, Lists};
    ghost use Rattle.run_layout.specs.EventActs.{AreGrown, AreEntries};
    ghost use Rattle.run_layout.specs.Rooms.{IsRoomedBy};
    ghost use Rattle.run_layout.specs.Initializers.{HaveNumbers};
    ghost use Rattle.elaborate.specs.Expressions.{own_trees};
    ghost use Rattle.run_layout.specs.Functions.{AddsExpression};
    ghost use Rattle.c_typed.specs.Tree.{tree_of, size};
    ghost use Rattle.core_ir.specs.declared.term.Core.{Core as CoreOf};
    ghost use Rattle.run_layout.specs.Listings.{entries_of};
    ghost use Rattle.run_layout.specs.OfTrees.{flat_of, AreOfTerms};
    ghost use Rattle.c_typed.specs.declared.program.Program.{Program as ProgramOf};
    ghost use Rattle.run_layout.specs.Fitting.{AreFit, AreLawful, StoreFits};

    pub fn new(alloc: Global) -> Self
        ensures none { result.laid.all.items ≡ [] }
        ensures fit { (p : ProgramOf) → AreFit p result.tables }
    {
        Expressions {
            tables: Tables::new(alloc),
            laid: Laid {
                entries: Vec::new(alloc),
                all: Vec::new(alloc),
            },
        }
    }

    // Gives its number.
    pub fn add_store(&mut self, store: StoreCode<'p>) -> Result<u32, NoMemory>
        ensures at { IfOk result (λ n. slice_get self.new.tables.stores.items n ≡ Some store.entry) }
        ensures grown { AreGrown self.old.tables self.new.tables }
        ensures fit { (p : ProgramOf) → StoreFits store.entry → AreFit p self.old.tables → AreFit p self.new.tables }
        ensures objects { self.new.tables.objects.items ≡ self.old.tables.objects.items }
        ensures blocks { self.new.tables.blocks.items ≡ self.old.tables.blocks.items }
        ensures kept { self.new.laid ≡ self.old.laid }
    {
        self.tables.add_store(store)
    }

    pub fn add_call(&mut self, call: CallCode<'p>) -> Result<u32, NoMemory>
        ensures at { IfOk result (λ n. slice_get self.new.tables.calls.items n ≡ Some call.entry) }
        ensures grown { AreGrown self.old.tables self.new.tables }
        ensures fit { (p : ProgramOf) → AreFit p self.old.tables → AreFit p self.new.tables }
        ensures kept { self.new.laid ≡ self.old.laid }
    {
        self.tables.add_call(call)
    }

    pub fn add_constants(&mut self, constants: &'p [Constant]) -> Result<u32, NoMemory>
        ensures at { IfOk result (λ n. slice_get self.new.tables.constants.items n ≡ Some constants.entry) }
        ensures grown { AreGrown self.old.tables self.new.tables }
        ensures fit { (p : ProgramOf) → AreLawful p constants.now → AreFit p self.old.tables → AreFit p self.new.tables }
        ensures kept { self.new.laid ≡ self.old.laid }
    {
        self.tables.add_constants(constants)
    }

    pub fn add_chosen(&mut self, chosen: &[(u32, u32)]) -> Result<Range, NoMemory>
        ensures within { IfOk result (IsRange (length self.new.tables.chosen.items)) }
        ensures lists { IfOk result (λ r. Lists self.new.tables.chosen.items r chosen.now) }
        ensures grown { AreGrown self.old.tables self.new.tables }
        ensures fit { (p : ProgramOf) → AreFit p self.old.tables → AreFit p self.new.tables }
        ensures kept { self.new.laid ≡ self.old.laid }
    {
        self.tables.add_chosen(chosen)
    }

    pub fn add_choice(&mut self, choice: Choice) -> Result<u32, NoMemory>
        requires { IsChoice (length self.old.tables.chosen.items) choice }
        ensures at { IfOk result (λ n. slice_get self.new.tables.choices.items n ≡ Some choice) }
        ensures grown { AreGrown self.old.tables self.new.tables }
        ensures fit { (p : ProgramOf) → AreFit p self.old.tables → AreFit p self.new.tables }
        ensures kept { self.new.laid ≡ self.old.laid }
    {
        self.tables.add_choice(choice)
    }

    pub fn add_object(&mut self, object: ObjectCode) -> Result<(), NoMemory>
        requires { IsObject (length self.old.tables.stores.items) object }
        ensures added { OnOk result (self.new.tables.objects.items ≡ self.old.tables.objects.items ++ object ∷ []) }
        ensures stores { self.new.tables.stores.items ≡ self.old.tables.stores.items }
        ensures blocks { self.new.tables.blocks.items ≡ self.old.tables.blocks.items }
        ensures grown { AreGrown self.old.tables self.new.tables }
        ensures fit { (p : ProgramOf) → AreFit p self.old.tables → AreFit p self.new.tables }
        ensures kept { self.new.laid ≡ self.old.laid }
    {
        self.tables.add_object(object)
    }

    pub fn add_block(&mut self, block: BlockCode) -> Result<(), NoMemory>
        requires { IsBlock (length self.old.tables.objects.items) block }
        ensures added { OnOk result (self.new.tables.blocks.items ≡ self.old.tables.blocks.items ++ block ∷ []) }
        ensures few { OnOk result (length self.old.tables.blocks.items < 2 ^ 32) }
        ensures objects { self.new.tables.objects.items ≡ self.old.tables.objects.items }
        ensures grown { AreGrown self.old.tables self.new.tables }
        ensures fit { (p : ProgramOf) → AreFit p self.old.tables → AreFit p self.new.tables }
        ensures kept { self.new.laid ≡ self.old.laid }
    {
        self.tables.add_block(block)
    }

    // The full expression of this root, with its nodes and the entries of its listing.
    pub fn add_expression(
        &mut self,
        root: &'p Typed,
        rooms: u32,
        chosen: Range,
        nodes: &[NodeInfo<'p>],
        entries: &[Listed<'p>],
    ) -> Result<(), NoMemory>
        requires laid_out { (firsts : List ℕ) × AreNodes firsts root.now nodes.now × AreEntries firsts self.old.tables nodes.now entries.now
            × Lists self.old.tables.chosen.items chosen (chosen_of firsts root.now 0) }
        requires roomed { IsRoomedBy nodes.now rooms }
        requires counted { length nodes.now < 2 ^ 32 }
        ensures order { OnOk result (roots_in self.new.laid.all.items ≡ roots_in self.old.laid.all.items ++ root.now ∷ []) }
        ensures listed { (terms : List CoreOf) → AreOfTerms terms self.old.laid →
            entries_of entries.now ≡ flat_of (size (tree_of root.now)) (slice_get terms (length self.old.laid.all.items))
            → OnOk result (AreOfTerms terms self.new.laid) }
        ensures tables { self.new.tables ≡ self.old.tables }
        ensures added { (firsts : List ℕ) → AreNodes firsts root.now nodes.now → AreEntries firsts self.old.tables nodes.now entries.now
            → Lists self.old.tables.chosen.items chosen (chosen_of firsts root.now 0)
            → HaveNumbers (suc (length self.old.laid.all.items)) (own_trees root.now) nodes.now
            → OnOk result (AddsExpression firsts root.now self.old.tables self.old.laid self.new.laid) }
    {
        let first = self.laid.entries.len();
        self.laid.entries.extend_from_slice(entries)?;
        let end = self.laid.entries.len();
        self.laid.all.push(Expression {
            root,
            rooms,
            chosen,
            first,
            end,
            value: nodes[0].operand,
        })?;
        Ok(())
    }
}
