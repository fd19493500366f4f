// What a node names: objects, functions and string literals (6.2.1, 6.2.4).
ghost use Rattle.std.specs.Prelude.{◌≡◌, IsTrue, map, slice_get};
ghost use Rattle.std.specs.Option.{option_copied};
ghost use Rattle.c_types.specs.Types.{type_of, qualified_of};
ghost use Rattle.c_typed.specs.Lawful.{object_at, CanBeCalled, NamesThere, PointsTo, There, FunctionIs};
ghost use Rattle.c_typed.specs.Sites.{no_block};
ghost use Rattle.lawful_trees.specs.Places.{blocks_of, block_seen};
ghost use Rattle.lawful_trees.specs.Views.{head_at, object_seen};

use crate::Around;
use crate::types::points_to;
use c_typed::{Function, Node, Program, Slot};
use c_types::{Qual, Ty, compatible_functions};

// The innermost block of this number round a place.
fn block_at<'a>(around: &'a [Around<'a>], number: u32) -> Option<&'a Around<'a>>
    ensures { block_seen result ≡ (blocks_of no_block around.now).objects number }
{
    let mut found = None;
    for block in around {
        if block.number == number {
            found = Some(block);
        }
    }
    found
}

/// An object that the text names: with static storage, or of a block round the place.
pub fn object_at<'a>(program: &'a Program, around: &'a [Around<'a>], slot: Slot) -> Option<&'a Qual>
    ensures { object_seen result ≡ object_at program.now (blocks_of no_block around.now) slot }
{
    match slot {
        Slot::Static(number) => Some(&program.statics.get(number as usize)?.qual),
        Slot::Auto { block, decl } => block_at(around, block)?.objects.get(decl as usize),
    }
}

/// Whether the function is defined, or the library's (6.9p3, 6.9p5).
pub fn can_be_called(function: &Function) -> bool
    ensures { IsTrue result → CanBeCalled function.now }
{
    function.body.is_some() || function.library.is_some()
}

// Whether a function of this number is there that can be called.
fn has_function(program: &Program, number: u32) -> bool
    ensures { IsTrue result → There (slice_get program.now.functions number) CanBeCalled }
{
    match program.functions.get(number as usize) {
        Some(function) => can_be_called(function),
        None => false,
    }
}

/// Whether what a node names is there.
pub fn names_there(program: &Program, around: &[Around<'_>], node: &Node) -> bool
    ensures { IsTrue result → NamesThere program.now (blocks_of no_block around.now) (head_at node.now) }
{
    match node {
        Node::Obj(slot) => object_at(program, around, *slot).is_some(),
        Node::Func(number) => has_function(program, *number),
        Node::Str(number) => (*number as usize) < program.literals.len(),
        Node::List { object, .. } => object_at(program, around, *object).is_some(),
        _ => true,
    }
}

/// Whether a pointer points to this object.
pub fn points_to_object(program: &Program, around: &[Around<'_>], slot: Slot, pointer: &Ty) -> bool
    ensures { IsTrue result → There (object_at program.now (blocks_of no_block around.now) slot) (λ object. PointsTo (type_of pointer.now) object.ty) }
{
    match object_at(program, around, slot) {
        Some(object) => points_to(pointer, &object.ty),
        None => false,
    }
}

/// Whether a pointer points to the function of this number.
pub fn points_to_function(program: &Program, number: u32, pointer: &Ty) -> bool
    ensures { IsTrue result → FunctionIs (slice_get program.now.functions number) (type_of pointer.now) }
{
    let (Some(function), Ty::Pointer(target)) = (program.functions.get(number as usize), pointer)
    else {
        return false;
    };
    match &target.get().ty {
        Ty::Function(own) => compatible_functions(own.get(), &function.ty),
        _ => false,
    }
}
