// Conversions (6.3, 6.5.4, 6.5.16.1).
ghost use Rattle.std.specs.Prelude.{◌≡◌, Some};
ghost use Rattle.c_types.specs.Types.{type_of, qualified_of};
ghost use Rattle.c_types.specs.Layout.{align_of};
ghost use Rattle.type_operands.specs.Terms.{term_of, expression_of, Gives};
ghost use Rattle.type_operands.specs.Conversions.{integer_of};
ghost use Rattle.type_constants.specs.Constants.{is_null};
ghost use Rattle.type_conversions.specs.Assigned as assigned;
ghost use Rattle.type_operands.specs.Conversions as spec;
ghost use Rattle.type_conversions.specs.Casts as casts;
ghost use Rattle.type_operands.specs.Layouts.{layouts};

use c_typed::{Conversion, Node, Typed};
use c_types::{IntKind, Qual, Tags, Ty, compatible, copied, promote, same_type, usual};
use std::alloc::Global;
use type_constants::{is_null, null_pointer};
use type_operands::{Form, Operand, discarded, kind_of, object_of, value, value_of, with_child};
use type_reasons::{Reason, Refused};

/// Whether the type is an integer or a pointer type (6.2.5p21).
pub fn is_scalar(ty: &Ty) -> bool
    ensures { result ≡ spec.is_scalar (type_of ty.now) }
{
    matches!(ty, Ty::Int(_) | Ty::Enum(_) | Ty::Pointer(_))
}

/// The value as an integer of this kind.
#[tactic(auto, unfolding(type_operands::specs::Conversions::to_kind))]
pub fn to_kind(alloc: Global, tree: Typed, kind: IntKind) -> Result<Typed, Refused>
    ensures { Gives term_of result (spec.to_kind kind (term_of tree)) }
{
    match &tree.ty {
        Ty::Int(own) if *own == kind => Ok(tree),
        Ty::Int(_) | Ty::Enum(_) => {
            let line = tree.line;
            let node = Node::Conv(Conversion::Integer(kind));
            with_child(alloc, node, Ty::Int(kind), line, tree)
        }
        _ => Err(Refused::Constraint(Reason::UnaryOperand)),
    }
}

/// An integer value after the integer promotions, with its kind (6.3.1.1p2).
#[tactic(auto, unfolding(type_operands::specs::Conversions::promoted, type_operands::specs::Conversions::to_kind))]
pub fn promoted(alloc: Global, tree: Typed) -> Result<(Typed, IntKind), Refused>
    ensures { Gives integer_of result (spec.promoted (term_of tree)) }
{
    match kind_of(&tree.ty) {
        None => Err(Refused::Constraint(Reason::UnaryOperand)),
        Some(kind) => {
            let kind = promote(kind);
            Ok((to_kind(alloc, tree, kind)?, kind))
        }
    }
}

/// The kind that the usual arithmetic conversions give (6.3.1.8p1).
#[tactic(auto, unfolding(type_operands::specs::Conversions::usual_kind))]
pub fn usual_kind(a: &Ty, b: &Ty) -> Option<IntKind>
    ensures { result ≡ spec.usual_kind (type_of a.now) (type_of b.now) }
{
    Some(usual(kind_of(a)?, kind_of(b)?))
}

/// An argument after the default argument promotions (6.5.2.2p6).
#[tactic(auto, unfolding(crate::specs::Assigned::default_promoted))]
pub fn promoted_argument(alloc: Global, tags: &Tags, operand: Operand) -> Result<Typed, Refused>
    ensures { Gives term_of result (assigned.default_promoted (layouts tags.now) (expression_of operand)) }
{
    let tree = value_of(alloc, tags, operand)?;
    match &tree.ty {
        Ty::Int(_) | Ty::Enum(_) => {
            let (tree, _kind) = promoted(alloc, tree)?;
            Ok(tree)
        }
        Ty::Pointer(_) | Ty::Struct(_) | Ty::Union(_) => Ok(tree),
        Ty::Void | Ty::Array(_, _) | Ty::Function(_) => Err(Refused::Constraint(
            Reason::CallArguments,
        )),
    }
}

/// A value that is tested against zero: of scalar type (6.5.13p2, 6.8.4.1p1, 6.8.5p2).
#[tactic(auto, unfolding(crate::specs::Casts::truth))]
pub fn truth(alloc: Global, tags: &Tags, operand: Operand) -> Result<Typed, Refused>
    ensures { Gives term_of result (casts.truth (layouts tags.now) (expression_of operand)) }
{
    let tree = value_of(alloc, tags, operand)?;
    if is_scalar(&tree.ty) {
        Ok(tree)
    } else {
        Err(Refused::Constraint(Reason::ConditionalTest))
    }
}

pub fn is_function(ty: &Ty) -> bool
    ensures { result ≡ spec.is_function (type_of ty.now) }
{
    matches!(ty, Ty::Function(_))
}

pub fn is_pointer(ty: &Ty) -> bool
    ensures { result ≡ spec.is_pointer (type_of ty.now) }
{
    matches!(ty, Ty::Pointer(_))
}

fn alignment(tags: &Tags, target: &Ty) -> u64
    ensures { result ≡ align_of tags.now (type_of target.now) }
{
    match tags.extent(target) {
        Some(e) => e.align,
        None => 1,
    }
}

fn pointer_conversion(tags: &Tags, from: &Qual, to: &Qual) -> Option<Conversion>
    ensures { result ≡ spec.pointer_conversion (layouts tags.now) (qualified_of from.now).ty (qualified_of to.now).ty }
{
    match (&from.ty, &to.ty) {
        (Ty::Function(_), Ty::Function(_)) => Some(Conversion::Function),
        (Ty::Function(_), _) => None,
        (_, Ty::Function(_)) => None,
        (_, target) => Some(Conversion::Pointer {
            align: alignment(tags, target),
        }),
    }
}

fn address_conversion(from: &Qual, kind: IntKind) -> Option<Conversion>
    ensures { result ≡ spec.address_conversion (qualified_of from.now).ty kind }
{
    match (&from.ty, kind) {
        (Ty::Function(_), _) => None,
        (_, IntKind::Bool) => Some(Conversion::NotNull),
        (_, kind) => Some(Conversion::Address(kind)),
    }
}

fn lookup_conversion(to: &Qual) -> Option<Conversion>
    ensures { result ≡ spec.lookup_conversion (qualified_of to.now).ty }
{
    match &to.ty {
        Ty::Function(_) => None,
        _ => Some(Conversion::Lookup),
    }
}

/// The conversion from one scalar type to another; none between a function pointer and an integer or an object pointer.
#[tactic(auto, unfolding(type_operands::specs::Conversions::conversion_to))]
fn conversion(tags: &Tags, from: &Ty, to: &Ty) -> Option<Conversion>
    ensures { result ≡ spec.conversion_to (layouts tags.now) (type_of from.now) (type_of to.now) }
{
    match (object_of(from), object_of(to)) {
        (Some(from), Some(to)) => pointer_conversion(tags, from, to),
        (Some(from), None) => address_conversion(from, kind_of(to)?),
        (None, Some(to)) => {
            let _from = kind_of(from)?;
            lookup_conversion(to)
        }
        (None, None) => {
            let _from = kind_of(from)?;
            Some(Conversion::Integer(kind_of(to)?))
        }
    }
}

fn is_function_pointer(ty: &Ty) -> bool {
    match object_of(ty) {
        Some(target) => is_function(&target.ty),
        None => false,
    }
}

// Why the one type isn't converted to the other.
fn not_converted(from: &Ty, to: &Ty) -> Reason {
    if is_function_pointer(from) || is_function_pointer(to) {
        Reason::FunctionConversion
    } else {
        Reason::CastTypes
    }
}

/// The value in another scalar type. No node stands between equal types.
pub fn converted(alloc: Global, tags: &Tags, tree: Typed, to: &Ty) -> Result<Typed, Refused>
    ensures { Gives term_of result (spec.converted (layouts tags.now) (type_of to.now) (term_of tree)) }
{
    let line = tree.line;
    converted_on(alloc, tags, tree, to, line)
}

// The same, with a conversion on this line.
#[tactic(auto, unfolding(type_operands::specs::Conversions::converted_on))]
fn converted_on(
    alloc: Global,
    tags: &Tags,
    tree: Typed,
    to: &Ty,
    line: u32,
) -> Result<Typed, Refused>
    ensures { Gives term_of result (spec.converted_on (layouts tags.now) line (type_of to.now) (term_of tree)) }
{
    if same_type(&tree.ty, to) {
        return Ok(tree);
    }
    match conversion(tags, &tree.ty, to) {
        None => Err(Refused::Constraint(not_converted(&tree.ty, to))),
        Some(conversion) => {
            let ty = copied(alloc, to)?;
            with_child(alloc, Node::Conv(conversion), ty, line, tree)
        }
    }
}

/// Whether the operand is a null pointer constant (6.3.2.3p3).
pub fn is_null_constant(operand: &Operand) -> bool
    ensures { result ≡ is_null (expression_of operand.now) }
{
    is_null(operand.form, &operand.tree)
}

/// Whether pointers to these types go together: they are compatible, or one is void and the other an object type
/// (6.5.9p2, 6.5.15p6, 6.5.16.1p1).
pub fn may_meet(a: &Ty, b: &Ty) -> bool
    ensures { result ≡ spec.may_meet (type_of a.now) (type_of b.now) }
{
    match a {
        Ty::Void => !is_function(b),
        a => match b {
            Ty::Void => !is_function(a),
            b => compatible(a, b),
        },
    }
}

// Whether a pointer may be assigned: the targets go together, and no qualifier is lost (6.5.16.1p1).
fn may_point(from: &Qual, to: &Qual) -> bool
    ensures { result ≡ assigned.may_point (qualified_of from.now) (qualified_of to.now) }
{
    (!from.constant || to.constant) && may_meet(&from.ty, &to.ty)
}

// Whether a value of the first type may be assigned to an object of the second (6.5.16.1p1).
fn may_assign(from: &Ty, to: &Ty) -> bool
    ensures { result ≡ assigned.may_assign (type_of from.now) (type_of to.now) }
{
    match to {
        Ty::Int(IntKind::Bool) => is_scalar(from),
        Ty::Int(_) | Ty::Enum(_) => kind_of(from).is_some(),
        Ty::Pointer(to) => match from {
            Ty::Pointer(from) => may_point(from.get(), to.get()),
            _ => false,
        },
        Ty::Struct(_) | Ty::Union(_) => compatible(from, to),
        Ty::Void | Ty::Array(_, _) | Ty::Function(_) => false,
    }
}

// Whether the operand is a null pointer constant that becomes a pointer of this type (6.3.2.3p3).
fn takes_null(operand: &Operand, to: &Ty) -> bool
    ensures { result ≡ assigned.takes_null (expression_of operand.now) (type_of to.now) }
{
    matches!(to, Ty::Pointer(_)) && !same_type(&operand.tree.ty, to) && is_null_constant(operand)
}

// A value put into an object of this type; a structure or union stays as it is.
fn put_as(alloc: Global, tags: &Tags, tree: Typed, to: &Ty) -> Result<Typed, Refused>
    ensures { Gives term_of result (assigned.put_as (layouts tags.now) (type_of to.now) (term_of tree)) }
{
    if !may_assign(&tree.ty, to) {
        return Err(Refused::Constraint(Reason::AssignedValue));
    }
    match to {
        Ty::Struct(_) | Ty::Union(_) => Ok(tree),
        to => converted(alloc, tags, tree, to),
    }
}

/// The operand converted as if by assignment to an object of this type (6.5.16.1p2).
#[tactic(auto, unfolding(crate::specs::Assigned::as_if_assigned))]
pub fn as_if_assigned(
    alloc: Global,
    tags: &Tags,
    operand: Operand,
    to: &Ty,
) -> Result<Typed, Refused>
    ensures { Gives term_of result (assigned.as_if_assigned (layouts tags.now) (type_of to.now) (expression_of operand)) }
{
    if takes_null(&operand, to) {
        return null_pointer(alloc, to, operand.tree.line);
    }
    let tree = value_of(alloc, tags, operand)?;
    put_as(alloc, tags, tree, to)
}

fn is_void_pointer(ty: &Ty) -> bool
    ensures { result ≡ casts.is_void_pointer (type_of ty.now) }
{
    match object_of(ty) {
        Some(target) => matches!(target.ty, Ty::Void) && !target.constant,
        None => false,
    }
}

#[tactic(auto, unfolding(crate::specs::Casts::void_cast))]
fn void_cast(alloc: Global, tags: &Tags, operand: Operand, line: u32) -> Result<Operand, Refused>
    ensures { Gives expression_of result (casts.void_cast (layouts tags.now) (expression_of operand) line) }
{
    Ok(Operand {
        tree: discarded(alloc, tags, operand)?,
        form: Form::Void,
        line,
    })
}

#[tactic(auto, unfolding(crate::specs::Casts::scalar_cast))]
fn scalar_cast(
    alloc: Global,
    tags: &Tags,
    operand: Operand,
    to: &Ty,
    line: u32,
) -> Result<Operand, Refused>
    ensures { Gives expression_of result (casts.scalar_cast (layouts tags.now) (type_of to.now) (expression_of operand) line) }
{
    let tree = value_of(alloc, tags, operand)?;
    if is_scalar(&tree.ty) && is_scalar(to) {
        Ok(value(converted_on(alloc, tags, tree, to, line)?))
    } else {
        Err(Refused::Constraint(Reason::CastTypes))
    }
}

// Of an integer constant expression of value 0, a cast to `void *` is a null pointer constant again; of `(void *)0` it
// is none.
fn null_cast(alloc: Global, operand: Operand, to: &Ty, line: u32) -> Result<Operand, Refused>
    ensures { Gives expression_of result (Some (casts.null_cast (expression_of operand) (type_of to.now) line)) }
{
    let again = matches!(operand.form, Form::Value) && is_void_pointer(to);
    let tree = null_pointer(alloc, to, line)?;
    Ok(Operand {
        tree,
        form: if again {
            Form::NullPointer
        } else {
            Form::Value
        },
        line,
    })
}

/// The operand cast to the type: to `void`, or between scalar types (6.5.4p2, 6.5.4p3). The conversion stands on the line of the
/// cast.
pub fn cast(
    alloc: Global,
    tags: &Tags,
    operand: Operand,
    to: &Ty,
    line: u32,
) -> Result<Operand, Refused>
    ensures { Gives expression_of result (casts.cast (layouts tags.now) (type_of to.now) (expression_of operand) line) }
{
    match to {
        Ty::Void => void_cast(alloc, tags, operand, line),
        Ty::Pointer(_) if is_null_constant(&operand) => null_cast(alloc, operand, to, line),
        to => scalar_cast(alloc, tags, operand, to, line),
    }
}
