// Values, places and function designators (6.3.2.1).
ghost use Rattle.std.specs.Prelude.{◌≡◌, [], ◌∷◌};
ghost use Rattle.c_types.specs.Types.{type_of, qualified_of, int};
ghost use Rattle.c_types.specs.Types as types;
ghost use Rattle.type_operands.specs.Terms.{term_of, seen_node, expression_of, made, constant, as_value, as_place, Gives};
ghost use Rattle.type_operands.specs.Terms as spec;
ghost use Rattle.type_operands.specs.Conversions.{target_seen, target_of, is_void_target, use_seen, use_at};
ghost use Rattle.type_operands.specs.Conversions as conversions;
ghost use Rattle.type_operands.specs.Layouts.{layouts};

use c_typed::{Access, Node, Typed};
use c_types::{FuncTy, IntKind, Qual, Shared, Tags, Ty, copied};
use std::alloc::Global;
use type_reasons::{Reason, Refused};
use ub_base::Items;

/// What an operand is before its use decides on a conversion.
#[derive(Clone, Copy, Debug, PartialEq, Eq)]
pub enum Form {
    /// A value of the node's type.
    Value,
    /// The null pointer constant `(void *)0` (6.3.2.3p3).
    NullPointer,
    /// An lvalue: the node gives a pointer to the object. Whether the object was declared `register`.
    Place { register: bool },
    /// A function: the node gives a pointer to it.
    Designator,
    /// A void expression whose node may give a value: a cast to `void` adds no node.
    Void,
}

/// A typed tree, what it is in its expression, and the line of the expression's first token, which a load of it has.
#[derive(Drop)]
pub struct Operand {
    pub tree: Typed,
    pub form: Form,
    pub line: u32,
}

/// A node without children.
pub fn leaf(alloc: Global, node: Node, ty: Ty, line: u32) -> Typed
    ensures { term_of result ≡ made node (type_of ty) line [] }
{
    Typed {
        node,
        ty,
        line,
        children: Items::new(alloc),
    }
}

/// A node with one child.
pub fn with_child(
    alloc: Global,
    node: Node,
    ty: Ty,
    line: u32,
    child: Typed,
) -> Result<Typed, Refused>
    ensures { Gives term_of result (Some (made node (type_of ty) line (term_of child ∷ []))) }
{
    let mut children = Items::new(alloc);
    children.push(child)?;
    Ok(Typed {
        node,
        ty,
        line,
        children,
    })
}

/// A node with two children.
pub fn with_children(
    alloc: Global,
    node: Node,
    ty: Ty,
    line: u32,
    first: Typed,
    second: Typed,
) -> Result<Typed, Refused>
    ensures { Gives term_of result (Some (made node (type_of ty) line (term_of first ∷ term_of second ∷ []))) }
{
    let mut children = Items::new(alloc);
    children.push(first)?;
    children.push(second)?;
    Ok(Typed {
        node,
        ty,
        line,
        children,
    })
}

/// The tree as a value.
pub fn value(tree: Typed) -> Operand
    ensures { expression_of result ≡ as_value (term_of tree) }
{
    let line = tree.line;
    Operand {
        tree,
        form: Form::Value,
        line,
    }
}

/// The tree, which gives a pointer, as an lvalue.
pub fn place(tree: Typed, register: bool) -> Operand
    ensures { expression_of result ≡ as_place register (term_of tree) }
{
    let line = tree.line;
    Operand {
        tree,
        form: Form::Place { register },
        line,
    }
}

/// An integer constant of this kind.
pub fn integer(alloc: Global, number: i128, kind: IntKind, line: u32) -> Typed
    ensures { term_of result ≡ constant number (int kind) line }
{
    leaf(alloc, Node::Const(number), Ty::Int(kind), line)
}

/// The integer kind of an integer or enumerated type.
pub fn kind_of(ty: &Ty) -> Option<IntKind>
    ensures { result ≡ types.kind_of (type_of ty.now) }
{
    match ty {
        Ty::Int(kind) => Some(*kind),
        Ty::Enum(_) => Some(IntKind::Int),
        _ => None,
    }
}

/// The type that a pointer type points to.
pub fn object_of(ty: &Ty) -> Option<&Qual>
    ensures { target_seen result ≡ target_of (type_of ty.now) }
{
    match ty {
        Ty::Pointer(target) => Some(target.get()),
        _ => None,
    }
}

/// The function type that a pointer type points to.
pub fn function_target(ty: &Ty) -> Option<&FuncTy> {
    match ty {
        Ty::Pointer(target) => match &target.get().ty {
            Ty::Function(f) => Some(f.get()),
            _ => None,
        },
        _ => None,
    }
}

/// How a complete scalar, structure or union type lies in memory.
pub fn access_of(tags: &Tags, ty: &Ty) -> Option<Access>
    ensures { result ≡ conversions.access_of (layouts tags.now) (type_of ty.now) }
{
    match ty {
        Ty::Int(kind) => Some(Access::Integer(*kind)),
        Ty::Enum(_) => Some(Access::Integer(IntKind::Int)),
        Ty::Pointer(target) => match &target.get().ty {
            Ty::Function(_) => Some(Access::Function),
            _ => Some(Access::Pointer),
        },
        Ty::Struct(_) | Ty::Union(_) => {
            let e = tags.extent(ty)?;
            Some(Access::Whole {
                size: e.size,
                align: e.align,
            })
        }
        Ty::Void | Ty::Array(_, _) | Ty::Function(_) => None,
    }
}

// The type of what is loaded from a place, or the pointer to its first element where it is an array (6.3.2.1p2, 6.3.2.1p3).
enum Used {
    Loaded(Access, Ty),
    Decayed(Ty),
}

fn use_of(alloc: Global, tags: &Tags, object: &Qual) -> Result<Used, Refused>
    ensures { Gives use_seen result (use_at (layouts tags.now) (qualified_of object.now).ty) }
{
    match &object.ty {
        Ty::Array(element, _) => {
            let target = Qual {
                ty: copied(alloc, &element.get().ty)?,
                constant: element.get().constant,
            };
            Ok(Used::Decayed(Ty::Pointer(Shared::new(alloc, target)?)))
        }
        ty => match access_of(tags, ty) {
            None => Err(Refused::Constraint(Reason::IncompleteValue)),
            Some(access) => Ok(Used::Loaded(access, copied(alloc, ty)?)),
        },
    }
}

fn use_behind(alloc: Global, tags: &Tags, ty: &Ty) -> Result<Used, Refused>
    ensures { Gives use_seen result (conversions.use_behind (layouts tags.now) (type_of ty.now)) }
{
    match object_of(ty) {
        None => Err(Refused::Constraint(Reason::IncompleteValue)),
        Some(object) => use_of(alloc, tags, object),
    }
}

/// The tree with another type.
pub fn retyped(tree: Typed, ty: Ty) -> Typed
    ensures { term_of result ≡ spec.retyped (type_of ty) (term_of tree) }
{
    let Typed {
        node,
        ty: _,
        line,
        children,
    } = tree;
    Typed {
        node,
        ty,
        line,
        children,
    }
}

/// The value of the operand: an lvalue is loaded, an array gives a pointer to its first element, a function a pointer to
/// it (6.3.2.1p2 to 6.3.2.1p4). Refused where the object's type is incomplete.
#[tactic(auto, unfolding(crate::specs::Conversions::value))]
pub fn value_of(alloc: Global, tags: &Tags, operand: Operand) -> Result<Typed, Refused>
    ensures { Gives term_of result (conversions.value (layouts tags.now) (expression_of operand)) }
{
    let Operand { tree, form, line } = operand;
    match form {
        Form::Value | Form::NullPointer | Form::Designator => Ok(tree),
        Form::Void => Err(Refused::Constraint(Reason::VoidValue)),
        Form::Place { register: _ } => match use_behind(alloc, tags, &tree.ty)? {
            Used::Decayed(ty) => Ok(retyped(tree, ty)),
            Used::Loaded(access, ty) => with_child(alloc, Node::Load(access), ty, line, tree),
        },
    }
}

// The node, a call as discarded.
fn unused(node: Node) -> Node
    ensures { seen_node result ≡ conversions.unused_node (seen_node node) }
{
    match node {
        Node::Call { discarded: _ } => Node::Call { discarded: true },
        node => node,
    }
}

fn without_use(tree: Typed) -> Typed
    ensures { term_of result ≡ conversions.without_use (term_of tree) }
{
    let Typed {
        node,
        ty,
        line,
        children,
    } = tree;
    let node = unused(node);
    Typed {
        node,
        ty,
        line,
        children,
    }
}

// Whether the pointer points to `void`.
pub fn is_void_place(ty: &Ty) -> bool
    ensures { result ≡ is_void_target (target_of (type_of ty.now)) }
{
    match object_of(ty) {
        Some(object) => matches!(object.ty, Ty::Void),
        None => false,
    }
}

/// The operand where its value isn't used (6.8.3p2): a call is marked as discarded, and a place is loaded all the same;
/// one of type `void` stays as it is.
#[tactic(auto, unfolding(crate::specs::Conversions::discarded, crate::specs::Conversions::value))]
pub fn discarded(alloc: Global, tags: &Tags, operand: Operand) -> Result<Typed, Refused>
    ensures { Gives term_of result (conversions.discarded (layouts tags.now) (expression_of operand)) }
{
    match operand.form {
        Form::Place { register: _ } if is_void_place(&operand.tree.ty) => Ok(tree_of(operand)),
        Form::Void => Ok(tree_of(operand)),
        _ => Ok(without_use(value_of(alloc, tags, operand)?)),
    }
}

/// The operand's node alone.
pub fn tree_of(operand: Operand) -> Typed
    ensures { term_of result ≡ (expression_of operand).tree }
{
    let Operand {
        tree,
        form: _,
        line: _,
    } = operand;
    tree
}
