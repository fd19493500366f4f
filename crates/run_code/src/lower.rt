// The listing of one full expression, from its term.
ghost use Rattle.std.specs.Prelude.{◌≡◌, ◌<◌, [], ◌∷◌, ◌++◌, ◌-◌, ◌^◌, ℕ, List, Option, map, min, length, OnOk, IfOk, Some, slice_get};
ghost use Rattle.c_types.specs.Types.{qualified_of, type_of};
ghost use Rattle.c_typed.specs.declared.tree.Typed.{out-Typed};
ghost use Rattle.c_typed.specs.Order.{place};
ghost use Rattle.c_typed.specs.declared.program.Program.{Program as ProgramOf};
ghost use Rattle.core_ir.specs.Term.{term_of};
ghost use Rattle.run_layout.specs.Roots.{roots_in};
ghost use Rattle.run_layout.specs.Listings.{entries_of, one, continuation, flat};
ghost use Rattle.run_layout.specs.Functions.{AddsExpression};
ghost use Rattle.run_layout.specs.OfTrees.{flat_of, AreOfTerms};
ghost use Rattle.run_layout.specs.declared.steps.Operand.{Operand as OperandOf};
ghost use Rattle.run_layout.specs.Resolved.{value_at};
ghost use Rattle.run_layout.specs.Numbered.{IsAt, AreNoted};
ghost use Rattle.run_layout.specs.InRange.{IsRange, IsChoice};
ghost use Rattle.run_layout.specs.AtOnce.{chosen_of, Lists};
ghost use Rattle.run_layout.specs.Choices.{Goes, IsChoiceOf, MakesChoice, ChoosesAt};
ghost use Rattle.run_layout.specs.Fitting.{AccessFits, RootFits, NodesFit, TreeFits, AreFit};
ghost use Rattle.run_layout.specs.EventActs.{head_at, pointed, first_type, later_types, seen, last_of, rest_of, GoesBy, room_of, change_access, IsValue};
ghost use Rattle.run_layout.specs.EventActs.{Stores, IsEffect, Calls, IsBody, IsAct, ends_with, IsDue, AreEntries, AreGrown};

use crate::choices::{chosen, chosen_at_once, is_choice, operand_number};
use crate::draft::Draft;
use crate::nodes::{Counts, collect, operands};
use c_typed::{Access, Change, Node, Place, Typed};
use c_types::{FuncTy, Qual, Ty, copied};
use core_ir::Core;
use run_layout::{
    Act, CallCode, Choice, Due, Expression, Listed, NodeInfo, Operand, Range, StoreCode, Way,
    next_number, number_of, number_with,
};
use std::alloc::Global;
use ub_base::{Items, Kind, NoMemory};

// The type of the object or function that a pointer of this type points to.
fn target(ty: &Ty) -> &Ty
    ensures { type_of result.now ≡ pointed (type_of ty.now) }
{
    match ty {
        Ty::Pointer(target) => &target.get().ty,
        ty => ty,
    }
}

// The type of a node's first operand, of a node without operands its own.
fn first_ty(tree: &Typed) -> &Ty
    ensures { type_of result.now ≡ first_type (type_of (out-Typed tree.now).ty) (out-Typed tree.now).children }
{
    match tree.children.get(0) {
        Some(child) => &child.ty,
        None => &tree.ty,
    }
}

// The type of the object or function that a node's first operand designates.
fn object_ty(tree: &Typed) -> &Ty
    ensures { type_of result.now ≡ pointed (first_type (type_of (out-Typed tree.now).ty) (out-Typed tree.now).children) }
{
    target(first_ty(tree))
}

impl<'p> Draft<'p> {
    // The full expression of this root, which comes next.
    pub fn expression(&mut self, root: &'p Typed, terms: &[Core]) -> Result<(), NoMemory>
        ensures order { OnOk result (roots_in self.new.expressions.laid.all.items ≡ roots_in self.old.expressions.laid.all.items ++ root.now ∷ []) }
        ensures listed { AreOfTerms terms.now self.old.expressions.laid → OnOk result (AreOfTerms terms.now self.new.expressions.laid) }
        ensures fit { (p : ProgramOf) → TreeFits p root.now → AreFit p self.old.expressions.tables → OnOk result (AreFit p self.new.expressions.tables) }
        ensures grown { OnOk result (AreGrown self.old.expressions.tables self.new.expressions.tables) }
        ensures objects { OnOk result (self.new.function.objects.first.items ≡ self.old.function.objects.first.items) }
        ensures added { OnOk result
            (AddsExpression self.old.function.objects.first.items root.now self.new.expressions.tables self.old.expressions.laid self.new.expressions.laid) }
    {
        let mut nodes = Vec::new(self.alloc);
        let mut counts = Counts {
            initializers: number_with(next_number(&self.expressions.laid.all)?, 1)?,
            olds: 0,
        };
        collect(&self.function.objects, root, None, &mut nodes, &mut counts)?;
        let rooms = number_with(number_of(nodes.len())?, counts.olds)?;
        let entries = self.listing(terms, &nodes)?;
        let chosen = self.chosen(root, 0, &nodes)?;
        let all = &mut self.expressions;
        all.add_expression(root, rooms, chosen, &nodes, &entries)
    }

    // The listing of the full expression that comes next, whose nodes these are: that of the next term.
    fn listing(
        &mut self,
        terms: &[Core],
        nodes: &[NodeInfo<'p>],
    ) -> Result<Vec<Listed<'p>>, NoMemory>
        ensures listed { IfOk result (λ es. entries_of es.items ≡ flat_of (length nodes.now)
            (slice_get terms.now (length self.old.expressions.laid.all.items))) }
        ensures objects { OnOk result (self.new.function.objects.first.items ≡ self.old.function.objects.first.items) }
        ensures kept { OnOk result (self.new.expressions.laid ≡ self.old.expressions.laid) }
        ensures fit { (p : ProgramOf) → NodesFit p nodes.now → AreFit p self.old.expressions.tables → OnOk result (AreFit p self.new.expressions.tables) }
        ensures grown { OnOk result (AreGrown self.old.expressions.tables self.new.expressions.tables) }
        ensures due { IfOk result (λ es. AreEntries self.new.function.objects.first.items self.new.expressions.tables nodes.now es.items) }
    {
        let mut entries = Vec::new(self.alloc);
        match terms.get(self.expressions.laid.all.len()) {
            Some(core) => {
                self.term(core, nodes, &mut entries)?;
                Ok(entries)
            }
            None => Ok(entries),
        }
    }

    // The choices that are made as soon as the node is due.
    fn chosen(
        &mut self,
        root: &Typed,
        number: u32,
        nodes: &[NodeInfo<'p>],
    ) -> Result<Range, NoMemory>
        ensures objects { self.new.function.objects.first.items ≡ self.old.function.objects.first.items }
        ensures kept { self.new.expressions.laid ≡ self.old.expressions.laid }
        ensures fit { (p : ProgramOf) → AreFit p self.old.expressions.tables → OnOk result (AreFit p self.new.expressions.tables) }
        ensures grown { OnOk result (AreGrown self.old.expressions.tables self.new.expressions.tables) }
        ensures within { IfOk result (IsRange (length self.new.expressions.tables.chosen.items)) }
        ensures chosen { (firsts : List ℕ) (parent : Option ℕ) → AreNoted firsts nodes.now → IsAt nodes.now number parent root.now →
            IfOk result (λ r. Lists self.new.expressions.tables.chosen.items r (chosen_of firsts root.now number)) }
    {
        let mut chosen = Vec::new(self.alloc);
        chosen_at_once(root, number, nodes, &mut chosen)?;
        self.expressions.add_chosen(&chosen)
    }

    // The events of a term, from left to right.
    #[cycle(term)]
    fn term(
        &mut self,
        core: &Core,
        nodes: &[NodeInfo<'p>],
        entries: &mut Vec<Listed<'p>>,
    ) -> Result<(), NoMemory>
        ensures listing { OnOk result (entries_of entries.new.items ≡ entries_of entries.old.items ++ flat (length nodes.now) (term_of core.now)) }
        ensures objects { OnOk result (self.new.function.objects.first.items ≡ self.old.function.objects.first.items) }
        ensures kept { OnOk result (self.new.expressions.laid ≡ self.old.expressions.laid) }
        ensures fit { (p : ProgramOf) → NodesFit p nodes.now → AreFit p self.old.expressions.tables → OnOk result (AreFit p self.new.expressions.tables) }
        ensures grown { OnOk result (AreGrown self.old.expressions.tables self.new.expressions.tables) }
        ensures due { AreEntries self.old.function.objects.first.items self.old.expressions.tables nodes.now entries.old.items →
            OnOk result (AreEntries self.new.function.objects.first.items self.new.expressions.tables nodes.now entries.new.items) }
    {
        match core {
            Core::Pure(_) => Ok(()),
            Core::Act(number, kind) => self.event(*number, *kind, nodes, entries),
            Core::Invoke(number) => self.event(*number, Kind::Body, nodes, entries),
            Core::Unseq(parts) => {
                for part in parts.items.as_slice() {
                    self.term(part, nodes, entries)?;
                }
                Ok(())
            }
            Core::Weak(first, second) | Core::Strong(first, second) => {
                self.term(first.get(), nodes, entries)?;
                self.term(second.get(), nodes, entries)
            }
            Core::Atomic(inner) | Core::Indet(inner) => self.term(inner.get(), nodes, entries),
            Core::Choose(number, test, first, second) => {
                self.term(test.get(), nodes, entries)?;
                self.continuation(*number, 1, first.get(), nodes, entries)?;
                self.continuation(*number, 2, second.get(), nodes, entries)
            }
        }
    }

    // The events of an operand that may be left out.
    #[cycle(term)]
    fn continuation(
        &mut self,
        node: u32,
        operand: u32,
        core: &Core,
        nodes: &[NodeInfo<'p>],
        entries: &mut Vec<Listed<'p>>,
    ) -> Result<(), NoMemory>
        ensures listing { OnOk result (entries_of entries.new.items ≡ entries_of entries.old.items ++ continuation node operand
            (flat (length nodes.now) (term_of core.now))) }
        ensures objects { OnOk result (self.new.function.objects.first.items ≡ self.old.function.objects.first.items) }
        ensures kept { OnOk result (self.new.expressions.laid ≡ self.old.expressions.laid) }
        ensures fit { (p : ProgramOf) → NodesFit p nodes.now → AreFit p self.old.expressions.tables → OnOk result (AreFit p self.new.expressions.tables) }
        ensures grown { OnOk result (AreGrown self.old.expressions.tables self.new.expressions.tables) }
        ensures due { AreEntries self.old.function.objects.first.items self.old.expressions.tables nodes.now entries.old.items →
            OnOk result (AreEntries self.new.function.objects.first.items self.new.expressions.tables nodes.now entries.new.items) }
    {
        let at = entries.len();
        let first = Listed::Operand {
            node,
            operand,
            count: 0,
        };
        entries.push(first)?;
        self.term(core, nodes, entries)?;
        let count = entries.len() - at - 1;
        entries[at] = Listed::Operand {
            node,
            operand,
            count,
        };
        Ok(())
    }
}

// Whether the event is the last one of its node where the effect follows the value.
fn completes(node: &Node, kind: Kind) -> bool
    ensures { result ≡ ends_with (head_at node.now) kind }
{
    match node {
        Node::Assign { .. } | Node::Update { .. } | Node::List { .. } => kind == Kind::Eff,
        _ => kind == Kind::Val,
    }
}

// The room of what an Update will store.
fn room(node: &Node, count: u32, number: u32, behind: u32) -> u32
    ensures { result ≡ room_of (head_at node.now) count number behind }
{
    match node {
        Node::Update { old: true, .. } => count.saturating_add(behind),
        _ => number,
    }
}

fn at(operands: &[Operand], index: usize) -> Operand
    ensures { result ≡ value_at operands.now index }
{
    match operands.get(index) {
        Some(operand) => *operand,
        None => Operand::Integer(0),
    }
}

fn last(operands: &[Operand]) -> Operand
    ensures { result ≡ last_of operands.now }
{
    at(operands, operands.len().saturating_sub(1))
}

fn changes(change: &Change) -> Access
    ensures { result ≡ change_access change.now }
{
    match change {
        Change::Integer { kind, .. } => Access::Integer(*kind),
        Change::Pointer { .. } => Access::Pointer,
    }
}

impl<'p> Draft<'p> {
    fn event(
        &mut self,
        number: u32,
        kind: Kind,
        nodes: &[NodeInfo<'p>],
        entries: &mut Vec<Listed<'p>>,
    ) -> Result<(), NoMemory>
        ensures listing { OnOk result (entries_of entries.new.items ≡ entries_of entries.old.items ++ one (length nodes.now) (place number kind)) }
        ensures objects { OnOk result (self.new.function.objects.first.items ≡ self.old.function.objects.first.items) }
        ensures kept { OnOk result (self.new.expressions.laid ≡ self.old.expressions.laid) }
        ensures fit { (p : ProgramOf) → NodesFit p nodes.now → AreFit p self.old.expressions.tables → OnOk result (AreFit p self.new.expressions.tables) }
        ensures grown { OnOk result (AreGrown self.old.expressions.tables self.new.expressions.tables) }
        ensures due { AreEntries self.old.function.objects.first.items self.old.expressions.tables nodes.now entries.old.items →
            OnOk result (AreEntries self.new.function.objects.first.items self.new.expressions.tables nodes.now entries.new.items) }
    {
        let Some(info) = nodes.get(number as usize) else {
            return Ok(());
        };
        let due = self.due(*info, number, kind, nodes)?;
        entries.push(Listed::Event(due))?;
        Ok(())
    }

    // What is noted of an event of this node.
    fn due(
        &mut self,
        info: NodeInfo<'p>,
        number: u32,
        kind: Kind,
        nodes: &[NodeInfo<'p>],
    ) -> Result<Due<'p>, NoMemory>
        ensures place { IfOk result (λ d. d.place ≡ place number kind) }
        ensures objects { OnOk result (self.new.function.objects.first.items ≡ self.old.function.objects.first.items) }
        ensures kept { OnOk result (self.new.expressions.laid ≡ self.old.expressions.laid) }
        ensures fit { (p : ProgramOf) → RootFits p info.entry.tree.now → AreFit p self.old.expressions.tables →
            OnOk result (AreFit p self.new.expressions.tables) }
        ensures grown { OnOk result (AreGrown self.old.expressions.tables self.new.expressions.tables) }
        ensures due { IfOk result (λ d. AreNoted self.old.function.objects.first.items nodes.now → slice_get nodes.now number ≡ Some info.entry →
            IsDue self.old.function.objects.first.items self.new.expressions.tables (length nodes.now) d info.entry) }
        ensures choice { (firsts : List ℕ) → AreNoted firsts nodes.now →
            IfOk result (λ d. ChoosesAt firsts self.new.expressions.tables nodes.now number info.entry d.place.kind d.choice) }
    {
        let tree = info.tree;
        let operands = operands(self.alloc, nodes, tree, number)?;
        let room = room(&tree.node, count_of_nodes(nodes), number, info.room);
        let act = self.act(info, kind, room, &operands)?;
        let choice = self.choice_at(info, number, kind, nodes)?;
        Ok(Due {
            place: Place { node: number, kind },
            line: tree.line,
            act,
            parent: info.parent,
            completes: completes(&tree.node, kind),
            choice,
        })
    }

    // What an event of this kind does.
    fn act(
        &mut self,
        info: NodeInfo<'p>,
        kind: Kind,
        room: u32,
        operands: &[Operand],
    ) -> Result<Act<'p>, NoMemory>
        ensures objects { OnOk result (self.new.function.objects.first.items ≡ self.old.function.objects.first.items) }
        ensures kept { OnOk result (self.new.expressions.laid ≡ self.old.expressions.laid) }
        ensures fit { (p : ProgramOf) → RootFits p info.entry.tree.now → AreFit p self.old.expressions.tables →
            OnOk result (AreFit p self.new.expressions.tables) }
        ensures grown { OnOk result (AreGrown self.old.expressions.tables self.new.expressions.tables) }
        ensures act { IfOk result (λ a. IsAct self.old.function.objects.first.items self.new.expressions.tables info.entry.initializer
            (head_at (out-Typed info.entry.tree.now).node) (seen info.entry.tree.now operands.now info.entry.operand room) kind a) }
    {
        match kind {
            Kind::Val => Ok(value_act(info.tree, info.operand, room, operands)),
            Kind::Eff => self.effect_act(info.tree, room, operands),
            Kind::Body => self.body_act(info.tree, info.initializer, operands),
        }
    }

    // The choice that is made at an event of this kind.
    fn choice_at(
        &mut self,
        info: NodeInfo<'p>,
        number: u32,
        kind: Kind,
        nodes: &[NodeInfo<'p>],
    ) -> Result<Option<u32>, NoMemory>
        ensures objects { self.new.function.objects.first.items ≡ self.old.function.objects.first.items }
        ensures kept { self.new.expressions.laid ≡ self.old.expressions.laid }
        ensures fit { (p : ProgramOf) → AreFit p self.old.expressions.tables → OnOk result (AreFit p self.new.expressions.tables) }
        ensures grown { OnOk result (AreGrown self.old.expressions.tables self.new.expressions.tables) }
        ensures choice { (firsts : List ℕ) → AreNoted firsts nodes.now →
            IfOk result (ChoosesAt firsts self.new.expressions.tables nodes.now number info.entry kind) }
    {
        match kind {
            Kind::Val => self.choice(info, number, nodes),
            _ => Ok(None),
        }
    }

    // The choice that the node above makes at the value of this node, which is its test.
    fn choice(
        &mut self,
        info: NodeInfo<'p>,
        number: u32,
        nodes: &[NodeInfo<'p>],
    ) -> Result<Option<u32>, NoMemory>
        ensures objects { self.new.function.objects.first.items ≡ self.old.function.objects.first.items }
        ensures kept { self.new.expressions.laid ≡ self.old.expressions.laid }
        ensures fit { (p : ProgramOf) → AreFit p self.old.expressions.tables → OnOk result (AreFit p self.new.expressions.tables) }
        ensures grown { OnOk result (AreGrown self.old.expressions.tables self.new.expressions.tables) }
        ensures choice { (firsts : List ℕ) → AreNoted firsts nodes.now →
            IfOk result (MakesChoice firsts self.new.expressions.tables nodes.now number info.entry) }
    {
        let Some(parent) = info.parent else {
            return Ok(None);
        };
        let Some(above) = nodes.get(parent as usize) else {
            return Ok(None);
        };
        if !is_choice(&above.tree.node) || number <= parent || number - parent != 1 {
            return Ok(None);
        }
        let choice = self.ways(above, parent, info.operand, nodes)?;
        Ok(Some(self.expressions.add_choice(choice)?))
    }

    // How the choice of this node goes by its test.
    fn ways(
        &mut self,
        above: &NodeInfo<'p>,
        node: u32,
        test: Operand,
        nodes: &[NodeInfo<'p>],
    ) -> Result<Choice, NoMemory>
        ensures objects { self.new.function.objects.first.items ≡ self.old.function.objects.first.items }
        ensures kept { self.new.expressions.laid ≡ self.old.expressions.laid }
        ensures fit { (p : ProgramOf) → AreFit p self.old.expressions.tables → OnOk result (AreFit p self.new.expressions.tables) }
        ensures grown { OnOk result (AreGrown self.old.expressions.tables self.new.expressions.tables) }
        ensures within { IfOk result (IsChoice (length self.new.expressions.tables.chosen.items)) }
        ensures choice { (firsts : List ℕ) → AreNoted firsts nodes.now → slice_get nodes.now node ≡ Some above.now →
            IfOk result (IsChoiceOf firsts self.new.expressions.tables node above.now test) }
    {
        let yes = self.way(above, node, true, nodes)?;
        let no = self.way(above, node, false, nodes)?;
        Ok(Choice {
            node,
            test,
            yes,
            no,
        })
    }

    fn way(
        &mut self,
        above: &NodeInfo<'p>,
        number: u32,
        truth: bool,
        nodes: &[NodeInfo<'p>],
    ) -> Result<Way, NoMemory>
        ensures objects { self.new.function.objects.first.items ≡ self.old.function.objects.first.items }
        ensures kept { self.new.expressions.laid ≡ self.old.expressions.laid }
        ensures fit { (p : ProgramOf) → AreFit p self.old.expressions.tables → OnOk result (AreFit p self.new.expressions.tables) }
        ensures grown { OnOk result (AreGrown self.old.expressions.tables self.new.expressions.tables) }
        ensures within { IfOk result (λ w. IsRange (length self.new.expressions.tables.chosen.items) w.chosen) }
        ensures goes { (firsts : List ℕ) → AreNoted firsts nodes.now → slice_get nodes.now number ≡ Some above.now →
            IfOk result (Goes firsts self.new.expressions.tables number above.now truth) }
    {
        let operand = chosen(&above.tree.node, truth);
        let none = Range { first: 0, count: 0 };
        let Some(index) = operand else {
            return Ok(Way {
                operand,
                chosen: none,
            });
        };
        let Some(child) = above.tree.children.get(index as usize) else {
            return Ok(Way {
                operand,
                chosen: none,
            });
        };
        let at = number_of(operand_number(nodes, number, index))?;
        let chosen = self.chosen(child, at, nodes)?;
        Ok(Way { operand, chosen })
    }

    fn effect_act(
        &mut self,
        tree: &'p Typed,
        room: u32,
        operands: &[Operand],
    ) -> Result<Act<'p>, NoMemory>
        ensures objects { OnOk result (self.new.function.objects.first.items ≡ self.old.function.objects.first.items) }
        ensures kept { OnOk result (self.new.expressions.laid ≡ self.old.expressions.laid) }
        ensures fit { (p : ProgramOf) → RootFits p tree.now → AreFit p self.old.expressions.tables → OnOk result (AreFit p self.new.expressions.tables) }
        ensures grown { OnOk result (AreGrown self.old.expressions.tables self.new.expressions.tables) }
        ensures act { (own : OperandOf) → IfOk result (λ a. IsEffect self.old.function.objects.first.items self.new.expressions.tables
            (head_at (out-Typed tree.now).node) (seen tree.now operands.now own room) a) }
    {
        match &tree.node {
            Node::Assign {
                initializing,
                access,
            } => {
                let value = at(operands, 1);
                self.store(*access, *initializing, tree, at(operands, 0), value)
            }
            Node::Update { change, old: _ } => {
                let value = Operand::Done(room);
                self.store(changes(change), false, tree, at(operands, 0), value)
            }
            Node::List { object, bytes } => {
                let object = self.function.objects.slot(*object);
                let constants = self.expressions.add_constants(bytes.as_slice())?;
                Ok(Act::Fill { object, constants })
            }
            _ => Ok(Act::Nothing),
        }
    }

    // The act that stores this value to the object that the first operand of the node designates.
    fn store(
        &mut self,
        access: Access,
        initializing: bool,
        tree: &'p Typed,
        place: Operand,
        value: Operand,
    ) -> Result<Act<'p>, NoMemory>
        ensures objects { OnOk result (self.new.function.objects.first.items ≡ self.old.function.objects.first.items) }
        ensures kept { OnOk result (self.new.expressions.laid ≡ self.old.expressions.laid) }
        ensures fit { (p : ProgramOf) → AccessFits access (pointed (first_type (type_of (out-Typed tree.now).ty) (out-Typed tree.now).children)) →
            AreFit p self.old.expressions.tables → OnOk result (AreFit p self.new.expressions.tables) }
        ensures grown { OnOk result (AreGrown self.old.expressions.tables self.new.expressions.tables) }
        ensures act { IfOk result (λ a. Stores self.new.expressions.tables access initializing
            (pointed (first_type (type_of (out-Typed tree.now).ty) (out-Typed tree.now).children)) place value a) }
    {
        let store = self.expressions.add_store(StoreCode {
            access,
            initializing,
            ty: object_ty(tree),
        })?;
        Ok(Act::Store {
            store,
            place,
            value,
        })
    }

    fn body_act(
        &mut self,
        tree: &'p Typed,
        initializer: u32,
        operands: &[Operand],
    ) -> Result<Act<'p>, NoMemory>
        ensures objects { OnOk result (self.new.function.objects.first.items ≡ self.old.function.objects.first.items) }
        ensures kept { OnOk result (self.new.expressions.laid ≡ self.old.expressions.laid) }
        ensures fit { (p : ProgramOf) → AreFit p self.old.expressions.tables → OnOk result (AreFit p self.new.expressions.tables) }
        ensures grown { OnOk result (AreGrown self.old.expressions.tables self.new.expressions.tables) }
        ensures act { (own : OperandOf) (room : ℕ) → IfOk result (λ a. IsBody self.new.expressions.tables initializer (head_at (out-Typed tree.now).node)
            (seen tree.now operands.now own room) a) }
    {
        match &tree.node {
            Node::Call { .. } => self.call(tree, operands),
            Node::Isolated(_) => Ok(Act::Initialize(initializer)),
            _ => Ok(Act::Nothing),
        }
    }

    fn call(&mut self, tree: &'p Typed, operands: &[Operand]) -> Result<Act<'p>, NoMemory>
        ensures objects { OnOk result (self.new.function.objects.first.items ≡ self.old.function.objects.first.items) }
        ensures kept { OnOk result (self.new.expressions.laid ≡ self.old.expressions.laid) }
        ensures fit { (p : ProgramOf) → AreFit p self.old.expressions.tables → OnOk result (AreFit p self.new.expressions.tables) }
        ensures grown { OnOk result (AreGrown self.old.expressions.tables self.new.expressions.tables) }
        ensures act { (own : OperandOf) (room : ℕ) → IfOk result (λ a. Calls self.new.expressions.tables (seen tree.now operands.now own room) a) }
    {
        let arguments = Vec::from_slice(self.alloc, behind_first(operands))?;
        let types = argument_types(self.alloc, tree)?;
        let call = self.expressions.add_call(CallCode {
            designator: at(operands, 0),
            ty: called(object_ty(tree)),
            arguments,
            types,
        })?;
        Ok(Act::Call(call))
    }
}

// The function type that a call goes by (6.5.2.2p1).
fn called(ty: &Ty) -> Option<&FuncTy>
    ensures { GoesBy (type_of ty.now) result }
{
    match ty {
        Ty::Function(ty) => Some(ty.get()),
        _ => None,
    }
}

fn behind_first<T>(items: &[T]) -> &[T]
    ensures { result.now ≡ rest_of items.now }
{
    match items.split_first() {
        Some((_, rest)) => rest,
        None => items,
    }
}

// The types of a call's arguments.
fn argument_types(alloc: Global, tree: &Typed) -> Result<Items<Qual>, NoMemory>
    ensures { IfOk result (λ ts. map (λ q. (qualified_of q).ty) ts ≡ later_types (out-Typed tree.now).children) }
{
    let mut types = Items::new(alloc);
    for child in behind_first(tree.children.as_slice()) {
        types.push(Qual {
            ty: copied(alloc, &child.ty)?,
            constant: false,
        })?;
    }
    Ok(types)
}

fn count_of_nodes(nodes: &[NodeInfo]) -> u32
    ensures { result ≡ min (length nodes.now) (2 ^ 32 - 1) }
{
    u32::try_from(nodes.len()).unwrap_or(u32::MAX)
}

// What a node's value event does.
fn value_act<'p>(tree: &'p Typed, own: Operand, room: u32, operands: &[Operand]) -> Act<'p>
    ensures { IsValue (head_at (out-Typed tree.now).node) (seen tree.now operands.now own room) result }
{
    let first = at(operands, 0);
    let second = at(operands, 1);
    match &tree.node {
        Node::Const(_) | Node::Obj(_) | Node::Func(_) | Node::Str(_) => Act::Same(own),
        // What the node gives may be used as another pointer (6.3.2.1p3), so the type is that of the object at its place.
        Node::Load(access) => Act::Load {
            access: *access,
            ty: object_ty(tree),
            place: first,
        },
        Node::Conv(conversion) => Act::Convert(*conversion, first),
        Node::Un(op) => Act::Unary(*op, first),
        Node::Bin(op, kind) => Act::Binary(*op, *kind, first, second),
        Node::PtrAdd { size, subtract } => Act::Move {
            size: *size,
            subtract: *subtract,
            pointer: first,
            index: second,
        },
        Node::PtrDiff { size } => Act::Distance {
            size: *size,
            left: first,
            right: second,
        },
        Node::Rel { op, pointers } => Act::Related {
            op: *op,
            pointers: *pointers,
            left: first,
            right: second,
        },
        Node::Eq(op) => Act::Equal(*op, first, second),
        Node::Member { offset } => Act::Member {
            offset: *offset,
            pointer: first,
        },
        Node::Part { offset, access } => Act::Part {
            offset: *offset,
            access: *access,
            whole: first,
        },
        Node::Assign { .. } => Act::Same(second),
        Node::Update { change, old } => Act::Change {
            change: *change,
            old: *old,
            ty: object_ty(tree),
            place: first,
            operand: if *old { Operand::Integer(1) } else { second },
            room,
        },
        Node::And => Act::Logical {
            either: false,
            first,
            second,
        },
        Node::Or => Act::Logical {
            either: true,
            first,
            second,
        },
        Node::Cond => Act::Selected {
            test: first,
            yes: second,
            no: at(operands, 2),
        },
        Node::Comma => Act::Same(last(operands)),
        Node::Call { discarded } => Act::Answer {
            discarded: *discarded,
        },
        Node::List { .. } | Node::Isolated(_) => Act::Nothing,
    }
}
