// The nodes of a full expression by their numbers.
ghost use Rattle.std.specs.Prelude.{◌≡◌, ◌+◌, ◌<◌, ◌^◌, ℕ, List, OnOk, IfOk, suc, length, slice_get};
ghost use Rattle.c_typed.specs.declared.tree.Typed.{out-Typed};
ghost use Rattle.c_types.specs.Types.{type_of};
ghost use Rattle.run_layout.specs.EventActs.{head_at};
ghost use Rattle.elaborate.specs.Expressions.{own_trees};
ghost use Rattle.run_layout.specs.Initializers.{trees_at, AreOwned};
ghost use Rattle.run_layout.specs.Rooms.{olds_with, AreRoomed};
ghost use Rattle.run_layout.specs.Resolved.{object_of, local_number, constant_of, by_conversion, member_of, resolved, operands_from, value_at};
ghost use Rattle.run_layout.specs.Numbered.{AreAdded, AreNoted, AreBelow};
ghost use Rattle.run_layout.specs.Fitting.{TreeFits, NodesFit};
ghost use Rattle.c_typed.specs.declared.program.Program.{Program as ProgramOf};

use c_typed::{Conversion, Node, Slot, Typed};
use c_types::Ty;
use run_layout::{NodeInfo, Objects, Operand, number_of, number_with};
use run_objects::function_address;
use std::alloc::Global;
use ub_base::NoMemory;

// A constant of this type (6.6): of a pointer type it is null.
fn constant(ty: &Ty, number: i128) -> Operand
    ensures { result ≡ constant_of (type_of ty.now) number }
{
    match ty {
        Ty::Pointer(target) => match target.get().ty {
            Ty::Function(_) => Operand::Function(0),
            _ => Operand::Address(0),
        },
        _ => Operand::Integer(number),
    }
}

// A conversion of this value.
fn converted(conversion: Conversion, number: u32, operand: Operand) -> Operand
    ensures { result ≡ by_conversion conversion number operand }
{
    match (conversion, operand) {
        (Conversion::Integer(kind), Operand::Integer(value)) => {
            Operand::Integer(c_arith::convert(kind, value))
        }
        _ => Operand::Done(number),
    }
}

// A member of the object at this place.
fn member(offset: u64, number: u32, operand: Operand) -> Operand
    ensures { result ≡ member_of offset number operand }
{
    match operand {
        Operand::Local { object, offset: at } => Operand::Local {
            object,
            offset: at.saturating_add(offset),
        },
        Operand::Static { object, offset: at } => Operand::Static {
            object,
            offset: at.saturating_add(offset),
        },
        _ => Operand::Done(number),
    }
}

// Where the value of a node comes from, its number being given: a quiet node's is known beforehand.
pub fn operand_of(objects: &Objects, root: &Typed, number: u32) -> Operand
    ensures { result ≡ resolved objects.now.first.items root.now number }
{
    match &root.node {
        Node::Const(value) => constant(&root.ty, *value),
        Node::Obj(slot) => objects.slot(*slot),
        Node::Func(function) => Operand::Function(function_address(*function)),
        Node::Str(literal) => Operand::Literal {
            object: *literal,
            offset: 0,
        },
        Node::Conv(conversion) => match root.children.get(0) {
            Some(child) => converted(*conversion, number, operand_of(objects, child, number)),
            None => Operand::Done(number),
        },
        Node::Member { offset } => match root.children.get(0) {
            Some(child) => member(*offset, number, operand_of(objects, child, number)),
            None => Operand::Done(number),
        },
        _ => Operand::Done(number),
    }
}

// The number of the full expression of the isolated initializer that comes next, and how many updates that give their old value
// there are so far.
#[derive(Clone, Copy, Debug)]
pub struct Counts {
    pub initializers: u32,
    pub olds: u32,
}

// The number behind those of the own trees of the isolated initializers in a tree, which have numbers from this one on.
fn behind_own(root: &Typed, first: u32) -> Result<u32, NoMemory>
    ensures { IfOk result (λ n. n ≡ first + length (own_trees root.now)) }
{
    let mut next = match &root.node {
        Node::Isolated(own) => behind_own(own.get(), number_with(first, 1)?)?,
        _ => first,
    };
    for child in root.children.as_slice() {
        next = behind_own(child, next)?;
    }
    Ok(next)
}

// .. where only that of the root counts.
fn behind_root(root: &Typed, first: u32) -> Result<u32, NoMemory>
    ensures { IfOk result (λ n. n ≡ first + length (trees_at root.now)) }
{
    match &root.node {
        Node::Isolated(own) => behind_own(own.get(), number_with(first, 1)?),
        _ => Ok(first),
    }
}

// Adds the nodes of a tree in preorder, and counts the rooms for old values.
pub fn collect<'p>(
    objects: &Objects,
    root: &'p Typed,
    parent: Option<u32>,
    nodes: &mut Vec<NodeInfo<'p>>,
    counts: &mut Counts,
) -> Result<(), NoMemory>
    ensures added { OnOk result (AreAdded objects.now.first.items parent root.now nodes.old.items nodes.new.items) }
    ensures counted { OnOk result (length nodes.new.items < 2 ^ 32) }
    ensures fit { (p : ProgramOf) → TreeFits p root.now → NodesFit p nodes.old.items → OnOk result (NodesFit p nodes.new.items) }
    ensures rooms { OnOk result (AreRoomed (length nodes.old.items) nodes.new.items counts.old.olds counts.new.olds) }
    ensures owned { OnOk result (AreOwned (length nodes.old.items) (own_trees root.now) nodes.new.items counts.old.initializers counts.new.initializers) }
{
    let number = number_of(nodes.len())?;
    let noted = info(objects, root, parent, number, counts)?;
    nodes.push(noted)?;
    for child in root.children.as_slice() {
        collect(objects, child, Some(number), nodes, counts)?;
    }
    let next = number_of(nodes.len())?;
    nodes[number as usize].next = next;
    Ok(())
}

// How many updates that give their old value there are with this node.
fn with_old(node: &Node, olds: u32) -> Result<u32, NoMemory>
    ensures { IfOk result (λ n. n ≡ olds_with (head_at node.now) olds) }
{
    match node {
        Node::Update { old: true, .. } => number_with(olds, 1),
        _ => Ok(olds),
    }
}

fn info<'p>(
    objects: &Objects,
    tree: &'p Typed,
    parent: Option<u32>,
    number: u32,
    counts: &mut Counts,
) -> Result<NodeInfo<'p>, NoMemory>
    ensures tree { IfOk result (λ x. x.tree.now ≡ tree.now) }
    ensures parent { IfOk result (λ x. x.parent ≡ parent) }
    ensures operand { IfOk result (λ x. x.operand ≡ resolved objects.now.first.items tree.now number) }
    ensures room { IfOk result (λ x. x.room ≡ counts.old.olds) }
    ensures olds { OnOk result (counts.new.olds ≡ olds_with (head_at (out-Typed tree.now).node) counts.old.olds) }
    ensures initializer { IfOk result (λ x. x.initializer ≡ counts.old.initializers) }
    ensures initializers { OnOk result (counts.new.initializers ≡ counts.old.initializers + length (trees_at tree.now)) }
{
    let Counts { initializers, olds } = *counts;
    counts.olds = with_old(&tree.node, olds)?;
    counts.initializers = behind_root(tree, initializers)?;
    Ok(NodeInfo {
        tree,
        parent,
        operand: operand_of(objects, tree, number),
        next: number,
        initializer: initializers,
        room: olds,
    })
}

// Where the values of the operands of the node of this number come from.
pub fn operands(
    alloc: Global,
    nodes: &[NodeInfo],
    tree: &Typed,
    number: u32,
) -> Result<Vec<Operand>, NoMemory>
    ensures { (firsts : List ℕ) → AreNoted firsts nodes.now → AreBelow nodes.now number (suc number) (out-Typed tree.now).children
        → IfOk result (λ os. os.items ≡ operands_from firsts (suc number) (out-Typed tree.now).children) }
{
    let mut operands = Vec::new(alloc);
    let mut at = number as usize + 1;
    for _child in tree.children.as_slice() {
        let Some(info) = nodes.get(at) else {
            return Err(NoMemory);
        };
        operands.push(info.operand)?;
        at = info.next as usize;
    }
    Ok(operands)
}
