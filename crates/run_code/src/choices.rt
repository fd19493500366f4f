// The choices of And, Or and Cond nodes that quiet tests make.
ghost use Rattle.std.specs.Prelude.{◌≡◌, ◌+◌, ◌++◌, ◌≤◌, ℕ, suc, true, length, List, Option, OnOk, slice_get};
ghost use Rattle.c_typed.specs.declared.tree.Node.{out-Node};
ghost use Rattle.c_typed.specs.declared.tree.Typed.{Typed as TypedOf, out-Typed};
ghost use Rattle.c_typed.specs.Tree.{tree_of, size};
ghost use Rattle.run_layout.specs.Numbered.{IsAt, AreBelow, AreNoted};
ghost use Rattle.run_layout.specs.Branches.{Chooses};
ghost use Rattle.run_layout.specs.Choosing.{chooses};
ghost use Rattle.run_layout.specs.AtOnce.{first_evaluated, own_choice, operand_number as number_of_operand, chosen_of};

use c_typed::{Node, Typed};
use run_layout::{NodeInfo, number_of};
use ub_base::NoMemory;

pub fn is_choice(node: &Node) -> bool
    ensures { result ≡ chooses (out-Node node.now) }
{
    matches!(node, Node::And | Node::Or | Node::Cond)
}

// The operand that an And, Or or Cond evaluates after its first one, which is true or false, where it evaluates another
// (6.5.13p4, 6.5.14p4, 6.5.15p4).
pub fn chosen(node: &Node, test: bool) -> Option<u32>
    ensures { Chooses (out-Node node.now) test result }
{
    match node {
        Node::And => { if test { Some(1) } else { None } }
        Node::Or => { if test { None } else { Some(1) } }
        Node::Cond => { if test { Some(1) } else { Some(2) } }
        _ => None,
    }
}

// The number of an operand, given the node's.
pub fn operand_number(nodes: &[NodeInfo], number: u32, index: u32) -> usize
    ensures { (firsts : List ℕ) (ts : List TypedOf) → AreNoted firsts nodes.now → AreBelow nodes.now number (suc number) ts → index ≤ length ts
        → result ≡ number_of_operand ts index (suc number) }
{
    let mut at = number as usize + 1;
    for _operand in 0..index {
        at = behind(nodes, at);
    }
    at
}

// The number of the operand behind the one with this number.
fn behind(nodes: &[NodeInfo], at: usize) -> usize
    ensures { (firsts : List ℕ) (parent : Option ℕ) (t : TypedOf) → AreNoted firsts nodes.now → IsAt nodes.now at parent t
        → result ≡ at + size (tree_of t) }
{
    match nodes.get(at) {
        Some(info) => info.next as usize,
        None => at,
    }
}

// The operand that a choice evaluates first: its test, unless that is quiet, and then the one that it takes.
fn first_operand(root: &Typed, number: u32, nodes: &[NodeInfo]) -> Option<u32>
    ensures { (firsts : List ℕ) (parent : Option ℕ) → AreNoted firsts nodes.now → IsAt nodes.now number parent root.now
        → chooses (out-Node (out-Typed root.now).node) ≡ true
        → result ≡ first_evaluated firsts (out-Node (out-Typed root.now).node) number (slice_get (out-Typed root.now).children 0) }
{
    let Some(_test) = root.children.get(0) else {
        return None;
    };
    let Some(test) = nodes.get(number as usize + 1) else {
        return None;
    };
    if !test.operand.is_quiet() {
        return Some(0);
    }
    chosen(&root.node, test.operand.truth())
}

// Adds the choice of a node that takes this operand, if that isn't its test.
fn add_own(number: u32, operand: u32, all: &mut Vec<(u32, u32)>) -> Result<(), NoMemory>
    ensures { OnOk result (all.new.items ≡ all.old.items ++ own_choice number operand) }
{
    if operand != 0 {
        all.push((number, operand))?;
    }
    Ok(())
}

// Adds the choices that are made as soon as this node is due: those whose test is quiet.
pub fn chosen_at_once(
    root: &Typed,
    number: u32,
    nodes: &[NodeInfo],
    all: &mut Vec<(u32, u32)>,
) -> Result<(), NoMemory>
    ensures { (firsts : List ℕ) (parent : Option ℕ) → AreNoted firsts nodes.now → IsAt nodes.now number parent root.now
        → OnOk result (all.new.items ≡ all.old.items ++ chosen_of firsts root.now number) }
{
    if is_choice(&root.node) {
        let Some(operand) = first_operand(root, number, nodes) else {
            return Ok(());
        };
        add_own(number, operand, all)?;
        let Some(child) = root.children.get(operand as usize) else {
            return Ok(());
        };
        let at = number_of(operand_number(nodes, number, operand))?;
        return chosen_at_once(child, at, nodes, all);
    }
    let mut at = number as usize + 1;
    for child in root.children.as_slice() {
        let operand = number_of(at)?;
        chosen_at_once(child, operand, nodes, all)?;
        at = behind(nodes, at);
    }
    Ok(())
}
