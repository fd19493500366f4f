// The values of constant expressions (6.6), read from their typed trees.
ghost use Rattle.std.specs.Prelude.{◌≡◌, ℤ, ◌+ℤ◌, ◌-ℤ◌, IfSome};
ghost use Rattle.c_types.specs.Types.{type_of};
ghost use Rattle.type_operands.specs.Terms.{term_of, terms_of, seen_node, Gives};
ghost use Rattle.type_constants.specs.Constants as spec;

use c_arith::{apply, complement, convert, is_operand, negate};
use c_typed::{Conversion, EqOp, Node, RelOp, Slot, Target, Typed, UnOp};
use c_types::{BinOp, Extent, IntKind, Ty, copied};
use std::alloc::Global;
use type_operands::{Form, kind_of, leaf};
use type_reasons::{NoObjects, Objects, Refused};
use ub_base::Clause;

/// What a constant expression is worth.
#[derive(Clone, Copy, Debug, PartialEq, Eq)]
pub enum Folded {
    /// No constant expression.
    Unknown,
    /// Constants alone, but without a value: an operator raises, or there is a comma. It may stand where it isn't evaluated
    /// (6.6p3).
    Valueless,
    /// An integer, or a pointer that is null or a number cast to a pointer.
    Number(i128),
    /// The address of the target plus an offset in bytes (6.6p9).
    Address(Target, i128),
}

// A value, or that there is none (6.6p4).
fn outcome(value: Result<i128, Clause>) -> Folded
    ensures { result ≡ spec.outcome value }
{
    match value {
        Ok(value) => Folded::Number(value),
        Err(_) => Folded::Valueless,
    }
}

fn truth(test: bool) -> Folded
    ensures { result ≡ spec.truth test }
{
    Folded::Number(if test { 1 } else { 0 })
}

fn is_zero(value: i128) -> bool
    ensures { result ≡ spec.is_zero value }
{
    value == 0
}

fn are_same(a: i128, b: i128) -> bool
    ensures { result ≡ spec.is_zero (a -ℤ b) }
{
    a == b
}

fn of_unary(op: UnOp, value: i128) -> Folded
    ensures { result ≡ spec.of_unary op value }
{
    match op {
        UnOp::Minus(kind) if kind.holds(value) => outcome(negate(kind, value)),
        UnOp::Complement(kind) if kind.holds(value) => Folded::Number(complement(kind, value)),
        UnOp::Not => truth(is_zero(value)),
        UnOp::Minus(_) | UnOp::Complement(_) => Folded::Unknown,
    }
}

fn of_binary(op: BinOp, kind: IntKind, a: i128, b: i128) -> Folded
    ensures { result ≡ spec.of_binary op kind a b }
{
    if kind.holds(a) && is_operand(op, kind, b) {
        outcome(apply(op, kind, a, b))
    } else {
        Folded::Unknown
    }
}

fn in_order(op: RelOp, a: i128, b: i128) -> bool
    ensures { result ≡ spec.in_order op a b }
{
    match op {
        RelOp::Less => a < b,
        RelOp::Greater => a > b,
        RelOp::LessEq => a <= b,
        RelOp::GreaterEq => a >= b,
    }
}

fn are_equal(op: EqOp, a: i128, b: i128) -> bool
    ensures { result ≡ spec.are_equal op a b }
{
    match op {
        EqOp::Equal => are_same(a, b),
        EqOp::NotEqual => !are_same(a, b),
    }
}

// Both values, or what an operator is worth where its operands aren't both numbers.
fn numbers(a: Folded, b: Folded) -> Result<(i128, i128), Folded>
    ensures { spec.IsPair a b result }
{
    match (a, b) {
        (Folded::Number(a), Folded::Number(b)) => Ok((a, b)),
        (Folded::Number(_), Folded::Valueless) => Err(Folded::Valueless),
        (Folded::Valueless, Folded::Number(_)) => Err(Folded::Valueless),
        (Folded::Valueless, Folded::Valueless) => Err(Folded::Valueless),
        _ => Err(Folded::Unknown),
    }
}

fn arithmetic(op: BinOp, kind: IntKind, a: Folded, b: Folded) -> Folded
    ensures { result ≡ spec.with_numbers (spec.of_binary op kind) a b }
{
    match numbers(a, b) {
        Ok((a, b)) => of_binary(op, kind, a, b),
        Err(worth) => worth,
    }
}

fn relation(op: RelOp, a: Folded, b: Folded) -> Folded
    ensures { result ≡ spec.with_numbers (λ x y. spec.truth (spec.in_order op x y)) a b }
{
    match numbers(a, b) {
        Ok((a, b)) => truth(in_order(op, a, b)),
        Err(worth) => worth,
    }
}

fn equality(op: EqOp, a: Folded, b: Folded) -> Folded
    ensures { result ≡ spec.with_numbers (λ x y. spec.truth (spec.are_equal op x y)) a b }
{
    match numbers(a, b) {
        Ok((a, b)) => truth(are_equal(op, a, b)),
        Err(worth) => worth,
    }
}

fn unary(op: UnOp, a: Folded) -> Folded
    ensures { result ≡ spec.with_number (spec.of_unary op) a }
{
    match a {
        Folded::Number(value) => of_unary(op, value),
        Folded::Valueless => Folded::Valueless,
        Folded::Unknown | Folded::Address(_, _) => Folded::Unknown,
    }
}

// Of `&&` and `||`: an operand that isn't evaluated needs no value (6.5.13p4, 6.5.14p4).
fn decided(either: bool, a: Folded, b: Folded) -> Folded
    ensures { result ≡ spec.decided either a b }
{
    match (a, b) {
        (Folded::Number(a), Folded::Number(b)) => {
            if is_zero(a) == either {
                truth(!is_zero(b))
            } else {
                truth(either)
            }
        }
        (Folded::Number(a), Folded::Valueless) => {
            if is_zero(a) == either {
                Folded::Valueless
            } else {
                truth(either)
            }
        }
        (Folded::Valueless, Folded::Number(_)) => Folded::Valueless,
        (Folded::Valueless, Folded::Valueless) => Folded::Valueless,
        _ => Folded::Unknown,
    }
}

fn is_constant(worth: Folded) -> bool
    ensures { result ≡ spec.is_constant worth }
{
    !matches!(worth, Folded::Unknown)
}

fn chosen(test: Folded, yes: Folded, no: Folded) -> Folded
    ensures { result ≡ spec.chosen test yes no }
{
    if !is_constant(yes) || !is_constant(no) {
        return Folded::Unknown;
    }
    match test {
        Folded::Number(test) => { if is_zero(test) { no } else { yes } }
        Folded::Valueless => Folded::Valueless,
        Folded::Unknown | Folded::Address(_, _) => Folded::Unknown,
    }
}

fn is_aligned(align: u64, at: i128) -> bool
    ensures { result ≡ spec.is_aligned align at }
{
    align != 0 && is_zero(at.rem_euclid(i128::from(align)))
}

// A number in another type.
fn number_as(conversion: Conversion, number: i128) -> Folded
    ensures { result ≡ spec.number_as conversion number }
{
    match conversion {
        Conversion::Integer(kind) => Folded::Number(convert(kind, number)),
        Conversion::Lookup => Folded::Number(convert(IntKind::ULong, number)),
        Conversion::Pointer { align } if is_aligned(align, number) => Folded::Number(number),
        Conversion::Function if is_zero(number) => Folded::Number(0),
        _ => Folded::Unknown,
    }
}

// An address converted to an object pointer type of this alignment (6.3.2.3p7).
fn realigned(align: u64, target: Target, at: i128, extent: Option<Extent>) -> Folded
    ensures { result ≡ spec.realigned align target at extent }
{
    match extent {
        Some(e) if is_aligned(align, at) && is_aligned(align, i128::from(e.align)) => {
            Folded::Address(target, at)
        }
        _ => Folded::Unknown,
    }
}

fn function_at(target: Target, at: i128) -> Folded
    ensures { result ≡ spec.function_at target at }
{
    match target {
        Target::Function(number) if is_zero(at) => Folded::Address(Target::Function(number), 0),
        _ => Folded::Unknown,
    }
}

fn converted(conversion: Conversion, from: Folded, extent: Option<Extent>) -> Folded
    ensures { result ≡ spec.converted conversion from extent }
{
    match from {
        Folded::Unknown => Folded::Unknown,
        Folded::Valueless => Folded::Valueless,
        Folded::Number(number) => number_as(conversion, number),
        Folded::Address(target, at) => match conversion {
            Conversion::Pointer { align } => realigned(align, target, at, extent),
            Conversion::Function => function_at(target, at),
            _ => Folded::Unknown,
        },
    }
}

// In the object, or one past it.
fn is_within(extent: Option<Extent>, at: i128) -> bool
    ensures { result ≡ spec.is_within extent at }
{
    match extent {
        Some(e) => 0 <= at && at <= i128::from(e.size),
        None => false,
    }
}

// From one place to another of one object, where the other is a number that fits (6.5.6p8).
fn moved(target: Target, extent: Option<Extent>, from: i128, to: Option<i128>) -> Folded
    ensures some { (place : ℤ) → to ≡ Some place → result ≡ spec.moved target extent from place }
    ensures none { to ≡ None → result ≡ Folded.Unknown }
{
    match to {
        Some(to) if is_within(extent, from) && is_within(extent, to) => Folded::Address(target, to),
        _ => Folded::Unknown,
    }
}

fn member(offset: u64, base: Folded, extent: Option<Extent>) -> Folded
    ensures { result ≡ spec.member offset base extent }
{
    match base {
        Folded::Address(target, at) => { advanced(target, extent, at, i128::from(offset)) }
        _ => Folded::Unknown,
    }
}

fn advanced(target: Target, extent: Option<Extent>, at: i128, step: i128) -> Folded
    ensures { result ≡ spec.moved target extent at (at +ℤ step) }
{
    moved(target, extent, at, at.checked_add(step))
}

fn receded(target: Target, extent: Option<Extent>, at: i128, step: i128) -> Folded
    ensures { result ≡ spec.moved target extent at (at -ℤ step) }
{
    moved(target, extent, at, at.checked_sub(step))
}

// A step of 2 ^ 127 bytes or more leaves every object.
fn indexed(
    size: u64,
    subtract: bool,
    target: Target,
    at: i128,
    extent: Option<Extent>,
    index: i128,
) -> Folded
    ensures { result ≡ spec.moved target extent at (spec.stepped size subtract at index) }
{
    let Some(e) = extent else {
        return Folded::Unknown;
    };
    let _bytes = e.size;
    match index.checked_mul(i128::from(size)) {
        Some(step) if subtract => receded(target, extent, at, step),
        Some(step) => advanced(target, extent, at, step),
        None => Folded::Unknown,
    }
}

fn element(size: u64, subtract: bool, base: Folded, extent: Option<Extent>, index: Folded) -> Folded
    ensures { result ≡ spec.element size subtract base extent index }
{
    match (base, index) {
        (Folded::Address(target, at), Folded::Number(index)) => {
            indexed(size, subtract, target, at, extent, index)
        }
        _ => Folded::Unknown,
    }
}

// What no constant expression has: the value of an object, an assignment, an increment, a call (6.6p3, 6.6p6, 6.6p9).
fn never_constant(node: &Node) -> bool
    ensures { result ≡ spec.never_constant (seen_node node.now).head }
{
    matches!(
        node,
        Node::Load(_)
            | Node::Assign {
                initializing: _,
                access: _
            }
            | Node::Update { change: _, old: _ }
            | Node::Call { discarded: _ }
            | Node::List {
                object: _,
                bytes: _
            }
            | Node::Isolated(_)
            | Node::Part {
                offset: _,
                access: _
            }
    )
}

fn is_comma(node: &Node) -> bool
    ensures { result ≡ spec.is_comma (seen_node node.now).head }
{
    matches!(node, Node::Comma)
}

// An operand as it is seen from its node.
#[derive(Clone, Copy)]
struct Part {
    worth: Folded,
    pointer: bool,
    // Of what its address names.
    extent: Option<Extent>,
}

fn extent_behind<O: Objects>(objects: &O, worth: Folded) -> Option<Extent>
    ensures { IfSome (O.places objects.now) (λ at. result ≡ spec.extent_behind at worth) }
{
    match worth {
        Folded::Address(target, _) => objects.extent_of(target),
        _ => None,
    }
}

fn part_of<O: Objects>(objects: &O, ty: &Ty, worth: Folded) -> Part
    ensures { IfSome (O.places objects.now) (λ at. result ≡ spec.part_of at (type_of ty.now) worth) }
{
    Part {
        worth,
        pointer: matches!(ty, Ty::Pointer(_)),
        extent: extent_behind(objects, worth),
    }
}

// Where an integer is wanted: how a pointer compares isn't constant.
fn integer(part: Part) -> Folded
    ensures { result ≡ spec.integer part }
{
    if part.pointer {
        Folded::Unknown
    } else {
        part.worth
    }
}

fn of_slot(slot: Slot) -> Folded
    ensures { result ≡ spec.of_slot slot }
{
    match slot {
        Slot::Static(number) => Folded::Address(Target::Static(number), 0),
        Slot::Auto { block: _, decl: _ } => Folded::Unknown,
    }
}

fn of_none(node: &Node) -> Folded
    ensures { result ≡ spec.of_none (seen_node node.now).head }
{
    match node {
        Node::Const(value) => Folded::Number(*value),
        Node::Obj(slot) => of_slot(*slot),
        Node::Func(number) => Folded::Address(Target::Function(*number), 0),
        Node::Str(number) => Folded::Address(Target::Literal(*number), 0),
        _ => Folded::Unknown,
    }
}

fn of_one(node: &Node, a: Part) -> Folded
    ensures { result ≡ spec.of_one (seen_node node.now).head a }
{
    match node {
        Node::Conv(conversion) => converted(*conversion, a.worth, a.extent),
        Node::Un(op) => unary(*op, integer(a)),
        Node::Member { offset } => member(*offset, a.worth, a.extent),
        _ => Folded::Unknown,
    }
}

fn of_two(node: &Node, a: Part, b: Part) -> Folded
    ensures { result ≡ spec.of_two (seen_node node.now).head a b }
{
    match node {
        Node::Bin(op, kind) => arithmetic(*op, *kind, a.worth, b.worth),
        Node::Rel {
            op,
            pointers: false,
        } => relation(*op, a.worth, b.worth),
        Node::Eq(op) => equality(*op, integer(a), integer(b)),
        Node::And => decided(false, integer(a), integer(b)),
        Node::Or => decided(true, integer(a), integer(b)),
        Node::PtrAdd { size, subtract } => element(*size, *subtract, a.worth, a.extent, b.worth),
        _ => Folded::Unknown,
    }
}

fn of_three(node: &Node, a: Part, b: Part, c: Part) -> Folded
    ensures { result ≡ spec.of_three (seen_node node.now).head a b c }
{
    match node {
        Node::Cond => chosen(integer(a), b.worth, c.worth),
        _ => Folded::Unknown,
    }
}

// The operands of a comma, which has no value in a constant expression (6.6p3).
#[cycle(folded)]
fn of_comma<O: Objects>(objects: &O, children: &[Typed]) -> Folded
    ensures { IfSome (O.places objects.now) (λ at. result ≡ spec.of_comma (spec.parts at (terms_of children.now))) }
{
    for child in children {
        if !is_constant(worth(objects, child)) {
            return Folded::Unknown;
        }
    }
    Folded::Valueless
}

#[cycle(folded)]
fn part_at<O: Objects>(objects: &O, tree: &Typed) -> Part
    ensures { IfSome (O.places objects.now) (λ at. result ≡ spec.part_at at (term_of tree.now)) }
{
    part_of(objects, &tree.ty, worth(objects, tree))
}

#[cycle(folded)]
fn of_operands<O: Objects>(objects: &O, node: &Node, children: &[Typed]) -> Folded
    ensures { IfSome (O.places objects.now) (λ at. result ≡ spec.of_operands (seen_node node.now).head (spec.parts at (terms_of children.now))) }
{
    let Some((a, rest)) = children.split_first() else {
        return of_none(node);
    };
    let a = part_at(objects, a);
    let Some((b, rest)) = rest.split_first() else {
        return of_one(node, a);
    };
    let b = part_at(objects, b);
    let Some((c, rest)) = rest.split_first() else {
        return of_two(node, a, b);
    };
    match rest.split_first() {
        None => of_three(node, a, b, part_at(objects, c)),
        Some(_) => Folded::Unknown,
    }
}

/// What the tree is worth as a constant expression.
#[cycle(folded)]
pub fn worth<O: Objects>(objects: &O, tree: &Typed) -> Folded
    ensures { IfSome (O.places objects.now) (λ at. result ≡ spec.worth at (term_of tree.now)) }
{
    if never_constant(&tree.node) {
        Folded::Unknown
    } else if is_comma(&tree.node) {
        of_comma(objects, tree.children.as_slice())
    } else {
        of_operands(objects, &tree.node, tree.children.as_slice())
    }
}

/// The value of an integer constant expression; none where it is no such expression or has no value (6.6p3, 6.6p4,
/// 6.6p6).
#[tactic(auto, unfolding(crate::specs::Constants::integer_constant))]
pub fn integer_constant(tree: &Typed) -> Option<i128>
    ensures { result ≡ spec.integer_constant (term_of tree.now) }
{
    let _kind = kind_of(&tree.ty)?;
    match worth(&NoObjects, tree) {
        Folded::Number(value) => Some(value),
        Folded::Unknown | Folded::Valueless | Folded::Address(_, _) => None,
    }
}

/// Whether an operand of this form and value is a null pointer constant: an integer constant expression of value 0, or
/// one cast to `void *` (6.3.2.3p3).
pub fn is_null(form: Form, tree: &Typed) -> bool
    ensures { result ≡ spec.null_as form (term_of tree.now) }
{
    match form {
        Form::NullPointer => true,
        Form::Value => match integer_constant(tree) {
            Some(value) => is_zero(value),
            None => false,
        },
        Form::Place { register: _ } | Form::Designator | Form::Void => false,
    }
}

/// A null pointer of this type.
pub fn null_pointer(alloc: Global, ty: &Ty, line: u32) -> Result<Typed, Refused>
    ensures { Gives term_of result (Some (spec.null_pointer (type_of ty.now) line)) }
{
    Ok(leaf(alloc, Node::Const(0), copied(alloc, ty)?, line))
}
