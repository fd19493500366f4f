// Two operands that go together: in their common type, or a null pointer constant in the other's type.
ghost use Rattle.std.specs.Prelude.{Some};
ghost use Rattle.c_types.specs.Types.{type_of};
ghost use Rattle.type_operands.specs.Terms.{term_of, Gives};
ghost use Rattle.type_operands.specs.Conversions as conversions;
ghost use Rattle.type_conversions.specs.Pairs.{balanced_of, pair_of};
ghost use Rattle.type_conversions.specs.Pairs as spec;

use crate::convert::{is_pointer, to_kind, usual_kind};
use c_typed::Typed;
use c_types::{IntKind, Ty};
use std::alloc::Global;
use type_constants::{is_null, null_pointer};
use type_operands::Form;
use type_reasons::{Reason, Refused};

// Both values in the type of the usual arithmetic conversions.
#[tactic(auto, unfolding(type_operands::specs::Conversions::balanced))]
pub fn balanced(alloc: Global, a: Typed, b: Typed) -> Result<(Typed, Typed, IntKind), Refused>
    ensures { Gives balanced_of result (conversions.balanced (term_of a) (term_of b)) }
{
    match usual_kind(&a.ty, &b.ty) {
        None => Err(Refused::Constraint(Reason::Product)),
        Some(kind) => Ok((to_kind(alloc, a, kind)?, to_kind(alloc, b, kind)?, kind)),
    }
}

// The value of this form beside one of another type: a null pointer constant gets a pointer's type (6.3.2.3p3).
fn beside(alloc: Global, form: Form, tree: Typed, other: &Ty) -> Result<Typed, Refused>
    ensures { Gives term_of result (Some (spec.beside form (term_of tree) (type_of other.now))) }
{
    if is_pointer(other) && is_null(form, &tree) {
        null_pointer(alloc, other, tree.line)
    } else {
        Ok(tree)
    }
}

// Two values, by the forms of their operands, where a null pointer constant has the other's pointer type.
pub fn matched(
    alloc: Global,
    f: Form,
    a: Typed,
    g: Form,
    b: Typed,
) -> Result<(Typed, Typed), Refused>
    ensures { Gives pair_of result (Some (spec.matched f (term_of a) g (term_of b))) }
{
    let b = beside(alloc, g, b, &a.ty)?;
    let a = beside(alloc, f, a, &b.ty)?;
    Ok((a, b))
}
