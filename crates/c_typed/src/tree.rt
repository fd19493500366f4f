//! The trees of full expressions.

use crate::Constant;
use c_types::{BinOp, IntKind, Ty};
use ub_base::{Boxed, Items, Kind};

/// A place among the events of a full expression: the preorder number of a node, and which part of its evaluation.
#[derive(Clone, Copy, Debug, PartialEq, Eq, PartialOrd, Ord)]
pub struct Place {
    pub node: u32,
    pub kind: Kind,
}

/// An object that the text names: with static storage, by its number in the program; or automatic, by the number of its
/// block in the function (in preorder, the body block being 0) and its number in the block.
#[derive(Clone, Copy, Debug, PartialEq, Eq)]
pub enum Slot {
    Static(u32),
    Auto { block: u32, decl: u32 },
}

/// What an address constant names (6.6p9).
#[derive(Clone, Copy, Debug, PartialEq, Eq)]
pub enum Target {
    Static(u32),
    Literal(u32),
    Function(u32),
}

/// How a value lies in memory.
#[derive(Clone, Copy, Debug, PartialEq, Eq)]
pub enum Access {
    /// An integer; an enumerated type is read as `int`.
    Integer(IntKind),
    /// A pointer to an object type or to `void`.
    Pointer,
    /// A pointer to a function type.
    Function,
    /// A whole structure or union.
    Whole { size: u64, align: u64 },
}

/// A conversion between scalar types that are not equal (6.3).
#[derive(Clone, Copy, Debug, PartialEq, Eq)]
pub enum Conversion {
    /// An integer to this integer type (6.3.1.2, 6.3.1.3).
    Integer(IntKind),
    /// A pointer to this integer type, which isn't `_Bool`; exposes (6.3.2.3p6).
    Address(IntKind),
    /// A pointer to `_Bool` (6.3.1.2).
    NotNull,
    /// An integer to a pointer (6.3.2.3p5).
    Lookup,
    /// A pointer to a pointer whose target has this alignment: 1 for `void` and for an incomplete type (6.3.2.3p7).
    Pointer { align: u64 },
    /// A function pointer to another function pointer type (6.3.2.3p8).
    Function,
}

/// `-`, `~` of an operand that is promoted to this kind, and `!` of any scalar (6.5.3.3).
#[derive(Clone, Copy, Debug, PartialEq, Eq)]
pub enum UnOp {
    Minus(IntKind),
    Complement(IntKind),
    Not,
}

/// A relational operator (6.5.8).
#[derive(Clone, Copy, Debug, PartialEq, Eq)]
pub enum RelOp {
    Less,
    Greater,
    LessEq,
    GreaterEq,
}

/// An equality operator (6.5.9).
#[derive(Clone, Copy, Debug, PartialEq, Eq)]
pub enum EqOp {
    Equal,
    NotEqual,
}

/// How an Update changes its object (6.5.2.4, 6.5.3.1, 6.5.16.2).
#[derive(Clone, Copy, Debug, PartialEq, Eq)]
pub enum Change {
    /// The object's value, of type `kind`, is converted to `work`, operated on, and converted back.
    Integer {
        op: BinOp,
        kind: IntKind,
        work: IntKind,
    },
    /// The object's value, a pointer, is moved by so many elements of `size` bytes.
    Pointer {
        size: u64,
        subtract: bool,
    },
}

/// A node, with the values that it holds. An lvalue is a node that gives a pointer to its object.
#[cycle(tree)]
#[derive(Drop)]
pub enum Node {
    /// An integer, or a null pointer where the type is a pointer type and the number 0.
    Const(i128),
    Obj(Slot),
    /// The function of this number.
    Func(u32),
    /// The string literal of this number.
    Str(u32),
    Load(Access),
    Conv(Conversion),
    Un(UnOp),
    /// The operands have been converted to this kind; of a shift the left one (6.5.5 to 6.5.7, 6.5.10 to 6.5.12).
    Bin(BinOp, IntKind),
    /// A pointer and an index of any integer type; elements of `size` bytes (6.5.6p8).
    PtrAdd {
        size: u64,
        subtract: bool,
    },
    /// Two pointers to elements of `size` bytes (6.5.6p9).
    PtrDiff {
        size: u64,
    },
    /// Of two integers of one kind, or of two pointers.
    Rel {
        op: RelOp,
        pointers: bool,
    },
    Eq(EqOp),
    /// The member at this offset of the object that the pointer points to (6.5.2.3).
    Member {
        offset: u64,
    },
    /// The member at this offset of a structure or union value (6.5.2.3p3).
    Part {
        offset: u64,
        access: Access,
    },
    Assign {
        initializing: bool,
        access: Access,
    },
    /// Gives the value before the change where `old` is true: postfix `++` and `--`.
    Update {
        change: Change,
        old: bool,
    },
    And,
    Or,
    Cond,
    Comma,
    /// Discarded where the value is not used.
    Call {
        discarded: bool,
    },
    /// The initializer list or string of an automatic object: the bytes of strings, and the zeros of scalar leaves that
    /// are not listed (6.7.9).
    List {
        object: Slot,
        bytes: Items<Constant>,
    },
    /// One listed expression, with its own tree: a full expression of a frame of its own.
    Isolated(Boxed<Typed>),
}

/// A node with its operands in the order of their numbers. `ty` is the type of the value that it gives, and `line` that
/// of the first token of the expression that it came from.
#[cycle(tree)]
#[derive(Drop)]
pub struct Typed {
    pub node: Node,
    pub ty: Ty,
    pub line: u32,
    pub children: Items<Typed>,
}
