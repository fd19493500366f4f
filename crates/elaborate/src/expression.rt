// The term of one full expression.
ghost use Rattle.std.specs.Prelude.{◌≡◌, ◌+◌, map, IfOk, [], ◌∷◌};
ghost use Rattle.c_typed.specs.Tree.{tree_of, size as nodes_of};
ghost use Rattle.core_ir.specs.Term.{term_of, unseq as Unseq, weak as Weak, strong as Strong, pure as Pure, terms_from};
ghost use Rattle.elaborate.specs.Terms.{capped, capped_for, node_term, choice_of, comma_of, head_of, rest_of, value, effect, body};

use c_typed::{Class, Typed, class_of};
use core_ir::{Core, Cores};
use std::alloc::Global;
use ub_base::{Boxed, Items, Kind, NoMemory};

// A term, and the first number after its nodes.
#[derive(Drop)]
pub struct Numbered {
    pub core: Core,
    pub next: u32,
}

// The term of the tree whose root has this number.
pub fn term(alloc: Global, root: &Typed, number: u32) -> Result<Numbered, NoMemory>
    ensures core { IfOk result (λ n. term_of n.core ≡ capped_for number (tree_of root.now)) }
    ensures next { IfOk result (λ n. n.next ≡ capped (number + nodes_of (tree_of root.now))) }
{
    let mut parts = Items::new(alloc);
    let mut next = number.saturating_add(1);
    for operand in root.children.as_slice() {
        let part = term(alloc, operand, next)?;
        next = part.next;
        parts.push(part.core)?;
    }
    let core = joined(alloc, class_of(root), number, parts)?;
    Ok(Numbered { core, next })
}

// The term of a node from those of its operands.
fn joined(alloc: Global, class: Class, number: u32, parts: Items<Core>) -> Result<Core, NoMemory>
    ensures { IfOk result (λ core. term_of core ≡ node_term number class (map term_of parts)) }
{
    match class {
        Class::Object | Class::Constant => Ok(Core::Pure(number)),
        Class::Plain => weak(alloc, unseq(parts), value(number)),
        Class::Store => {
            let both = pair(alloc, value(number), effect(number))?;
            weak(alloc, unseq(parts), both)
        }
        Class::Update => {
            let halves = weak(alloc, value(number), effect(number))?;
            let update = Core::Atomic(Boxed::new(alloc, halves)?);
            weak(alloc, unseq(parts), update)
        }
        Class::Choice => {
            let choice = choose(alloc, number, parts)?;
            weak(alloc, choice, value(number))
        }
        Class::Comma => comma(alloc, number, parts),
        Class::Call => {
            let body = body(alloc, number)?;
            let whole = strong(alloc, unseq(parts), body)?;
            weak(alloc, whole, value(number))
        }
        Class::Isolated => {
            let body = body(alloc, number)?;
            weak(alloc, body, value(number))
        }
    }
}

fn quiet(number: u32) -> Core
    ensures { term_of result ≡ Pure number }
{
    Core::Pure(number)
}

fn value(number: u32) -> Core
    ensures { term_of result ≡ value number }
{
    Core::Act(number, Kind::Val)
}

fn effect(number: u32) -> Core
    ensures { term_of result ≡ effect number }
{
    Core::Act(number, Kind::Eff)
}

fn body(alloc: Global, number: u32) -> Result<Core, NoMemory>
    ensures { IfOk result (λ core. term_of core ≡ body number) }
{
    Ok(Core::Indet(Boxed::new(alloc, Core::Invoke(number))?))
}

fn unseq(parts: Items<Core>) -> Core
    ensures { term_of result ≡ Unseq (terms_from (map term_of parts)) }
{
    Core::Unseq(Cores { items: parts })
}

fn pair(alloc: Global, first: Core, second: Core) -> Result<Core, NoMemory>
    ensures { IfOk result (λ core. term_of core ≡ Unseq (terms_from (term_of first ∷ term_of second ∷ []))) }
{
    let mut parts = Items::new(alloc);
    parts.push(first)?;
    parts.push(second)?;
    Ok(unseq(parts))
}

fn weak(alloc: Global, first: Core, second: Core) -> Result<Core, NoMemory>
    ensures { IfOk result (λ core. term_of core ≡ Weak (term_of first) (term_of second)) }
{
    Ok(Core::Weak(Boxed::new(alloc, first)?, Boxed::new(alloc, second)?))
}

fn strong(alloc: Global, first: Core, second: Core) -> Result<Core, NoMemory>
    ensures { IfOk result (λ core. term_of core ≡ Strong (term_of first) (term_of second)) }
{
    Ok(Core::Strong(Boxed::new(alloc, first)?, Boxed::new(alloc, second)?))
}

// The first of the parts, and a node without events where none is left.
fn first(parts: &mut Items<Core>, number: u32) -> Core
    ensures item { term_of result ≡ head_of number (map term_of parts.old) }
    ensures rest { map term_of parts.new ≡ rest_of (map term_of parts.old) }
{
    if parts.len() == 0 {
        return quiet(number);
    }
    parts.remove(0)
}

// An And, Or or Cond: its first operand and the two that may be evaluated after it.
fn choose(alloc: Global, number: u32, mut parts: Items<Core>) -> Result<Core, NoMemory>
    ensures { IfOk result (λ core. term_of core ≡ choice_of number (map term_of parts)) }
{
    let test = first(&mut parts, number);
    let second = first(&mut parts, number);
    let third = first(&mut parts, number);
    Ok(Core::Choose(
        number,
        Boxed::new(alloc, test)?,
        Boxed::new(alloc, second)?,
        Boxed::new(alloc, third)?,
    ))
}

// The last operand's value comes before the node's, and all of the others do.
fn comma(alloc: Global, number: u32, mut parts: Items<Core>) -> Result<Core, NoMemory>
    ensures { IfOk result (λ core. term_of core ≡ comma_of number (map term_of parts)) }
{
    let operand = match parts.pop() {
        Some(operand) => operand,
        None => quiet(number),
    };
    let mut whole = weak(alloc, operand, value(number))?;
    for _turn in 0..parts.len() {
        whole = match parts.pop() {
            Some(operand) => strong(alloc, operand, whole)?,
            None => whole,
        };
    }
    Ok(whole)
}
