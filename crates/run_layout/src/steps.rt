// What a program is laid out in: blocks, functions, and the canonical listings of full expressions.

use c_typed::{Access, Change, Constant, Conversion, EqOp, Place, RelOp, Typed, UnOp};
use c_types::{BinOp, FuncTy, IntKind, Qual, Shape, Ty};
use run_control::Statement;
use std::rc::Rc;
use ub_base::Items;

/// Where a value comes from: quiet nodes need no room for theirs.
#[derive(Clone, Copy, Debug)]
pub enum Operand {
    Integer(i128),
    /// A pointer of empty provenance.
    Address(u64),
    Function(u64),
    /// An automatic object of the frame, by its number in the function.
    Local { object: u32, offset: u64 },
    Static { object: u32, offset: u64 },
    Literal { object: u32, offset: u64 },
    /// The value of the node of this number.
    Done(u32),
}

/// So many entries of a table from the first on.
#[derive(Clone, Copy, Debug)]
pub struct Range {
    pub first: u32,
    pub count: u32,
}

/// What an event does.
#[derive(Clone, Copy)]
pub enum Act<'p> {
    Load {
        access: Access,
        ty: &'p Ty,
        place: Operand,
    },
    Convert(Conversion, Operand),
    Unary(UnOp, Operand),
    Binary(BinOp, IntKind, Operand, Operand),
    Move {
        size: u64,
        subtract: bool,
        pointer: Operand,
        index: Operand,
    },
    Distance {
        size: u64,
        left: Operand,
        right: Operand,
    },
    Related {
        op: RelOp,
        pointers: bool,
        left: Operand,
        right: Operand,
    },
    Equal(EqOp, Operand, Operand),
    Member {
        offset: u64,
        pointer: Operand,
    },
    Part {
        offset: u64,
        access: Access,
        whole: Operand,
    },
    /// The value of an operand: Assign's and Comma's.
    Same(Operand),
    Logical {
        either: bool,
        first: Operand,
        second: Operand,
    },
    Selected {
        test: Operand,
        yes: Operand,
        no: Operand,
    },
    /// An Update's value; what it will store goes to the room of this number.
    Change {
        change: Change,
        old: bool,
        ty: &'p Ty,
        place: Operand,
        operand: Operand,
        room: u32,
    },
    /// The store of this number puts this value at the place. An Assign's is that of its operand, since its own may come later (6.5.16p3).
    Store {
        store: u32,
        place: Operand,
        value: Operand,
    },
    /// The body of the call of this number.
    Call(u32),
    /// A call's value: what its body left.
    Answer {
        discarded: bool,
    },
    /// The body of an isolated initializer, by the number of its full expression.
    Initialize(u32),
    Nothing,
    /// The constant bytes of this number are stored in the object.
    Fill {
        object: Operand,
        constants: u32,
    },
}

/// A due event.
#[derive(Clone, Copy)]
pub struct Due<'p> {
    pub place: Place,
    pub line: u32,
    pub act: Act<'p>,
    /// The node above.
    pub parent: Option<u32>,
    /// It is the last event of its node.
    pub completes: bool,
    /// The choice that the node above makes at this event.
    pub choice: Option<u32>,
}

/// An entry of the canonical listing of a full expression.
#[derive(Clone, Copy)]
pub enum Listed<'p> {
    Event(Due<'p>),
    /// So many entries behind this one are of this operand of an And, Or or Cond; they count where it is chosen.
    Operand {
        node: u32,
        operand: u32,
        count: usize,
    },
}

/// How a choice goes by the truth of its test: the operand that is evaluated next, and the choices that are made with it.
#[derive(Clone, Copy, Debug)]
pub struct Way {
    pub operand: Option<u32>,
    pub chosen: Range,
}

#[derive(Clone, Copy, Debug)]
pub struct Choice {
    pub node: u32,
    pub test: Operand,
    pub yes: Way,
    pub no: Way,
}

/// A full expression.
#[derive(Clone, Copy)]
pub struct Expression<'p> {
    pub root: &'p Typed,
    /// How many values it has room for: one for each node, and one for each Update that gives its old value.
    pub rooms: u32,
    /// The choices that are made as it begins.
    pub chosen: Range,
    /// Where its listing begins and ends.
    pub first: usize,
    pub end: usize,
    pub value: Operand,
}

/// A call: what is called, its type, and the arguments.
#[derive(Drop)]
pub struct CallCode<'p> {
    pub designator: Operand,
    pub ty: Option<&'p FuncTy>,
    pub arguments: Vec<Operand>,
    /// Those of printf's arguments.
    pub types: Items<Qual>,
}

/// How a value of this type is stored.
#[derive(Clone, Copy)]
pub struct StoreCode<'p> {
    pub access: Access,
    pub initializing: bool,
    pub ty: &'p Ty,
}

/// An object of a block.
#[derive(Drop)]
pub struct ObjectCode {
    pub size: u64,
    pub align: u64,
    pub constant: bool,
    pub shape: Option<Rc<Shape>>,
    /// The store by which it takes an argument.
    pub store: u32,
}

/// A block: its objects, the number of the first in its function, how many take arguments, and the bytes that they count.
#[derive(Clone, Copy, Debug)]
pub struct BlockCode {
    pub objects: Range,
    pub first: u32,
    pub arguments: u32,
    pub created: u64,
}

/// A function: its body, the first of its blocks, how many automatic objects it has, and its full expressions.
#[derive(Drop)]
pub struct FunctionCode {
    pub body: Statement,
    pub blocks: u32,
    pub objects: u32,
    pub expressions: Range,
}
