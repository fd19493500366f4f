// Full expressions (6.8p4).
ghost use Rattle.std.specs.Prelude.{IsTrue, IfOk};
ghost use Rattle.c_types.specs.Types.{type_of, signature_of};
ghost use Rattle.c_types.specs.Types as types;
ghost use Rattle.c_typed.specs.declared.program.Program.{Program};
ghost use Rattle.c_typed.specs.Lawful.{ExpressionIsLawful, UseFits, There, IsPromoted};
ghost use Rattle.c_typed.specs.Sites.{no_block};
ghost use Rattle.lawful_trees.specs.Places.{use_of, blocks_of};

use crate::initial::initial_fits;
use crate::nodes::{count_nodes, is_lawful_tree};
use crate::types::{is_promoted, is_scalar, is_void, kind_of};
use crate::{Around, Purpose};
use c_typed::{Program, Typed};
use c_types::{FuncTy, Ty, same_type};
use std::alloc::Global;
use ub_base::NoMemory;

// Whether a `switch` may select by it (6.8.4.2p5).
fn selects(ty: &Ty) -> bool
    ensures { IsTrue result → There (types.kind_of (type_of ty.now)) IsPromoted }
{
    match kind_of(ty) {
        Some(kind) => is_promoted(kind),
        None => false,
    }
}

// Whether a value of this type fits what it is for, in a function of the owner's type (6.8.4.1, 6.8.4.2, 6.8.5, 6.8.6.4).
fn use_fits(owner: &FuncTy, purpose: Purpose, ty: &Ty) -> bool
    ensures { IsTrue result → (p : Program) → UseFits p (signature_of owner.now) (use_of purpose) (type_of ty.now) }
{
    match purpose {
        Purpose::Unused | Purpose::Initializes => true,
        Purpose::Tested => is_scalar(ty),
        Purpose::Selects => selects(ty),
        Purpose::Returned => same_type(ty, &owner.result) && !is_void(&owner.result),
    }
}

/// Whether a full expression is lawful in a function of this type, inside these blocks, the innermost last.
pub fn is_lawful_expression(
    alloc: Global,
    program: &Program,
    owner: &FuncTy,
    around: &[Around<'_>],
    tree: &Typed,
    purpose: Purpose,
) -> Result<bool, NoMemory>
    ensures { IfOk result (λ b. IsTrue b → ExpressionIsLawful program.now (signature_of owner.now)
        (record { tree = tree.now; for_use = use_of purpose; blocks = blocks_of no_block around.now })) }
{
    if count_nodes(tree) >= 0x1_0000_0000 {
        return Ok(false);
    }
    if !use_fits(owner, purpose, &tree.ty) {
        return Ok(false);
    }
    let initial = initial_fits(alloc, program, around, purpose, tree)?;
    Ok(initial && is_lawful_tree(program, around, tree))
}
