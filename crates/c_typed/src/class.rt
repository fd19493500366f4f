//! What of a node matters to the order of evaluation.

ghost use Rattle.std.specs.Prelude.{Some, ◌≡◌, ◌-◌, ◌^◌, min};
ghost use Rattle.c_typed.specs.Tree.{tree_of, size as nodes_of, class_of, is_quiet_class, conversion_class, class_over, member_class};

use crate::{Conversion, Node, Typed};

/// The classes of nodes by their events and the order of these (own). The first two are quiet: they have no events.
#[derive(Clone, Copy, Debug, PartialEq, Eq)]
pub enum Class {
    /// An object, or a member of one.
    Object,
    /// A constant, the address of a function or a string literal, or an integer conversion of what is quiet.
    Constant,
    /// A value computation alone.
    Plain,
    /// A value computation and a side effect that are unsequenced: assignments and initializer lists.
    Store,
    /// A value computation and a side effect after it: `++`, `--` and compound assignments.
    Update,
    /// `&&`, `||` and `?:`.
    Choice,
    Comma,
    Call,
    Isolated,
}

impl Class {
    pub fn is_quiet(self) -> bool
        ensures { result ≡ is_quiet_class self }
    {
        match self {
            Class::Object | Class::Constant => true,
            _ => false,
        }
    }
}

/// The class of the root.
pub fn class_of(root: &Typed) -> Class
    ensures { result ≡ class_of (tree_of root.now) }
{
    match &root.node {
        Node::Obj(_) => Class::Object,
        Node::Const(_) | Node::Func(_) | Node::Str(_) => Class::Constant,
        Node::Conv(conversion) => match root.children.get(0) {
            Some(operand) => conversion_class(*conversion, class_of(operand)),
            None => Class::Plain,
        },
        Node::Member { .. } => match root.children.get(0) {
            Some(operand) => member_class(class_of(operand)),
            None => Class::Plain,
        },
        Node::Assign { .. } | Node::List { .. } => Class::Store,
        Node::Update { .. } => Class::Update,
        Node::And | Node::Or | Node::Cond => Class::Choice,
        Node::Comma => Class::Comma,
        Node::Call { .. } => Class::Call,
        Node::Isolated(_) => Class::Isolated,
        Node::Load(_) | Node::Un(_) | Node::Bin(..) => Class::Plain,
        Node::PtrAdd { .. } | Node::PtrDiff { .. } => Class::Plain,
        Node::Rel { .. } | Node::Eq(_) | Node::Part { .. } => Class::Plain,
    }
}

/// The class of a conversion of such an operand.
fn conversion_class(conversion: Conversion, operand: Class) -> Class
    ensures { result ≡ conversion_class conversion (Some operand) }
{
    match conversion {
        Conversion::Integer(_) => class_over(operand),
        Conversion::Address(_) | Conversion::NotNull | Conversion::Lookup => Class::Plain,
        Conversion::Pointer { .. } | Conversion::Function => Class::Plain,
    }
}

/// The class of an integer conversion of such an operand.
fn class_over(operand: Class) -> Class
    ensures { result ≡ class_over (Some operand) }
{
    if operand.is_quiet() {
        Class::Constant
    } else {
        Class::Plain
    }
}

/// The class of a member of such an operand.
fn member_class(operand: Class) -> Class
    ensures { result ≡ member_class (Some operand) }
{
    match operand {
        Class::Object => Class::Object,
        _ => Class::Plain,
    }
}

/// How many nodes the tree has; the greatest number of the type stands for more.
pub fn size(root: &Typed) -> u32
    ensures { result ≡ min (nodes_of (tree_of root.now)) (2 ^ 32 - 1) }
{
    let mut sum = 1u32;
    for t in root.children.as_slice() {
        sum = sum.saturating_add(size(t));
    }
    sum
}
