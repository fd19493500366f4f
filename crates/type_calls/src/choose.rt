// Calls, conditionals and commas (6.5.2.2, 6.5.15, 6.5.17).
ghost use Rattle.std.specs.Prelude.{◌≡◌, Some, map};
ghost use Rattle.c_types.specs.Types.{type_of, qualified_of, signature_of, params_of};
ghost use Rattle.type_operands.specs.Terms.{term_of, terms_of, expression_of, Gives};
ghost use Rattle.type_operands.specs.Conversions.{is_void_expression};
ghost use Rattle.type_calls.specs.Calls as calls;
ghost use Rattle.type_calls.specs.Choices as spec;
ghost use Rattle.type_operands.specs.Layouts.{layouts};

use c_typed::{Node, Typed};
use c_types::{FuncTy, Qual, Shared, Tags, Ty, compatible, composite, copied};
use std::alloc::Global;
use type_conversions::{
    as_if_assigned, balanced, converted, matched, may_meet, promoted_argument, truth,
};
use type_operands::{Form, Operand, discarded, is_void_place, object_of, tree_of, value, value_of};
use type_reasons::{Reason, Refused};
use ub_base::Items;

// Whether a call may give a value of this type: `void`, or a complete object type that is no array (6.5.2.2p1).
fn may_return(tags: &Tags, ty: &Ty) -> bool
    ensures { result ≡ calls.may_return (layouts tags.now) (type_of ty.now) }
{
    match ty {
        Ty::Void => true,
        Ty::Array(_, _) | Ty::Function(_) => false,
        ty => tags.extent(ty).is_some(),
    }
}

// The next argument: converted to the type of its parameter, or by the default promotions where the ellipsis takes it
// (6.5.2.2p7).
fn argument(
    alloc: Global,
    tags: &Tags,
    variadic: bool,
    params: &[Qual],
    operand: Operand,
) -> Result<Typed, Refused>
    ensures { Gives term_of result (calls.argument (layouts tags.now) variadic (params_of (map qualified_of params.now)) (expression_of operand)) }
{
    match params.split_first() {
        Some((param, _)) => as_if_assigned(alloc, tags, operand, &param.ty),
        None if variadic => promoted_argument(alloc, tags, operand),
        None => Err(Refused::Constraint(Reason::CallArguments)),
    }
}

// The parameters behind the first.
fn further(params: &[Qual]) -> &[Qual]
    ensures { params_of (map qualified_of result.now) ≡ calls.rest (params_of (map qualified_of params.now)) }
{
    match params.split_first() {
        Some((_, rest)) => rest,
        None => params,
    }
}

// The function and its arguments, as many as it takes (6.5.2.2p2).
fn with_arguments(
    alloc: Global,
    tags: &Tags,
    variadic: bool,
    params: &[Qual],
    designator: Typed,
    arguments: Vec<Operand>,
) -> Result<Items<Typed>, Refused>
    ensures { Gives terms_of result (calls.operands (layouts tags.now) (term_of designator) variadic (params_of (map qualified_of params.now))
        (map expression_of arguments.items)) }
{
    let mut children = Items::new(alloc);
    children.push(designator)?;
    let mut left = params;
    for operand in arguments {
        children.push(argument(alloc, tags, variadic, left, operand)?)?;
        left = further(left);
    }
    match left.split_first() {
        Some(_) => Err(Refused::Constraint(Reason::CallArguments)),
        None => Ok(children),
    }
}

fn callee(alloc: Global, ty: &Ty) -> Result<Shared<FuncTy>, Refused>
    ensures { Gives signature_of result (calls.callee (type_of ty.now)) }
{
    match object_of(ty) {
        Some(target) => match copied(alloc, &target.ty)? {
            Ty::Function(f) => Ok(f),
            _ => Err(Refused::Constraint(Reason::CalledType)),
        },
        None => Err(Refused::Constraint(Reason::CalledType)),
    }
}

/// `f(arguments)`: through a pointer to a function (6.5.2.2).
#[tactic(auto, unfolding(crate::specs::Calls::called))]
pub fn called(
    alloc: Global,
    tags: &Tags,
    designator: Operand,
    arguments: Vec<Operand>,
    line: u32,
) -> Result<Operand, Refused>
    ensures { Gives expression_of result (calls.called (layouts tags.now) (expression_of designator) (map expression_of arguments.items) line) }
{
    let designator = value_of(alloc, tags, designator)?;
    let f = callee(alloc, &designator.ty)?;
    let f = f.get();
    if !may_return(tags, &f.result) {
        return Err(Refused::Constraint(Reason::CalledType));
    }
    let ty = copied(alloc, &f.result)?;
    let params = f.params.as_slice();
    let children = with_arguments(alloc, tags, f.variadic, params, designator, arguments)?;
    let node = Node::Call { discarded: false };
    Ok(value(Typed {
        node,
        ty,
        line,
        children,
    }))
}

/// Whether the operand is a void expression (6.3.2.2).
pub fn is_void(operand: &Operand) -> bool
    ensures { result ≡ is_void_expression (expression_of operand.now) }
{
    match operand.form {
        Form::Void => true,
        Form::Value => matches!(operand.tree.ty, Ty::Void),
        Form::Place { register: _ } => is_void_place(&operand.tree.ty),
        Form::NullPointer | Form::Designator => false,
    }
}

fn choice(
    alloc: Global,
    ty: Ty,
    line: u32,
    test: Typed,
    yes: Typed,
    no: Typed,
) -> Result<Operand, Refused>
    ensures { Gives expression_of result (Some (spec.choice (type_of ty) line (term_of test) (term_of yes) (term_of no))) }
{
    let mut children = Items::new(alloc);
    children.push(test)?;
    children.push(yes)?;
    children.push(no)?;
    Ok(value(Typed {
        node: Node::Cond,
        ty,
        line,
        children,
    }))
}

fn joint_type(alloc: Global, a: &Ty, b: &Ty) -> Result<Ty, Refused>
    ensures { Gives type_of result (Some (spec.joint_type (type_of a.now) (type_of b.now))) }
{
    match (a, b) {
        (Ty::Void, _) | (_, Ty::Void) => Ok(Ty::Void),
        (a, b) => Ok(composite(alloc, a, b)?),
    }
}

// The target of the pointer that a conditional gives: `void` where one is, otherwise the composite type, with the
// qualifiers of both (6.5.15p6).
fn joint_target(alloc: Global, a: &Qual, b: &Qual) -> Result<Qual, Refused>
    ensures { Gives qualified_of result (spec.joint_target (qualified_of a.now) (qualified_of b.now)) }
{
    if !may_meet(&a.ty, &b.ty) {
        return Err(Refused::Constraint(Reason::ConditionalOperands));
    }
    let ty = joint_type(alloc, &a.ty, &b.ty)?;
    Ok(Qual {
        ty,
        constant: a.constant || b.constant,
    })
}

fn joint_pointer(alloc: Global, a: &Ty, b: &Ty) -> Result<Ty, Refused>
    ensures { Gives type_of result (spec.joint_pointer (type_of a.now) (type_of b.now)) }
{
    match (object_of(a), object_of(b)) {
        (Some(x), Some(y)) => Ok(Ty::Pointer(Shared::new(alloc, joint_target(alloc, x, y)?)?)),
        _ => Err(Refused::Constraint(Reason::ConditionalOperands)),
    }
}

#[tactic(auto, unfolding(crate::specs::Choices::chosen_pointer))]
fn chosen_pointer(
    alloc: Global,
    tags: &Tags,
    test: Typed,
    yes: Typed,
    no: Typed,
    line: u32,
) -> Result<Operand, Refused>
    ensures { Gives expression_of result (spec.chosen_pointer (layouts tags.now) (term_of test) (term_of yes) (term_of no) line) }
{
    let ty = joint_pointer(alloc, &yes.ty, &no.ty)?;
    let yes = converted(alloc, tags, yes, &ty)?;
    let no = converted(alloc, tags, no, &ty)?;
    choice(alloc, ty, line, test, yes, no)
}

#[tactic(auto, unfolding(crate::specs::Choices::chosen_integer))]
fn chosen_integer(
    alloc: Global,
    test: Typed,
    yes: Typed,
    no: Typed,
    line: u32,
) -> Result<Operand, Refused>
    ensures { Gives expression_of result (spec.chosen_integer (term_of test) (term_of yes) (term_of no) line) }
{
    let (yes, no, kind) = balanced(alloc, yes, no)?;
    choice(alloc, Ty::Int(kind), line, test, yes, no)
}

fn chosen_whole(
    alloc: Global,
    test: Typed,
    yes: Typed,
    no: Typed,
    line: u32,
) -> Result<Operand, Refused>
    ensures { Gives expression_of result (spec.chosen_whole (term_of test) (term_of yes) (term_of no) line) }
{
    if !compatible(&yes.ty, &no.ty) {
        return Err(Refused::Constraint(Reason::ConditionalOperands));
    }
    let ty = copied(alloc, &yes.ty)?;
    choice(alloc, ty, line, test, yes, no)
}

fn chosen_value(
    alloc: Global,
    tags: &Tags,
    test: Typed,
    yes: Typed,
    no: Typed,
    line: u32,
) -> Result<Operand, Refused>
    ensures { Gives expression_of result (spec.chosen_value (layouts tags.now) (term_of test) (term_of yes) (term_of no) line) }
{
    match (&yes.ty, &no.ty) {
        (Ty::Pointer(_), Ty::Pointer(_)) => chosen_pointer(alloc, tags, test, yes, no, line),
        (Ty::Struct(_), Ty::Struct(_)) => chosen_whole(alloc, test, yes, no, line),
        (Ty::Union(_), Ty::Union(_)) => chosen_whole(alloc, test, yes, no, line),
        _ => chosen_integer(alloc, test, yes, no, line),
    }
}

#[tactic(auto, unfolding(crate::specs::Choices::chosen_values))]
fn chosen_values(
    alloc: Global,
    tags: &Tags,
    test: Typed,
    yes: Operand,
    no: Operand,
    line: u32,
) -> Result<Operand, Refused>
    ensures { Gives expression_of result (spec.chosen_values (layouts tags.now) (term_of test) (expression_of yes) (expression_of no) line) }
{
    let (f, g) = (yes.form, no.form);
    let yes = value_of(alloc, tags, yes)?;
    let no = value_of(alloc, tags, no)?;
    let (yes, no) = matched(alloc, f, yes, g, no)?;
    chosen_value(alloc, tags, test, yes, no, line)
}

/// `test ? yes : no` (6.5.15).
#[tactic(auto, unfolding(crate::specs::Choices::chosen))]
pub fn chosen(
    alloc: Global,
    tags: &Tags,
    test: Operand,
    yes: Operand,
    no: Operand,
    line: u32,
) -> Result<Operand, Refused>
    ensures { Gives expression_of result (spec.chosen (layouts tags.now) (expression_of test) (expression_of yes) (expression_of no) line) }
{
    let test = truth(alloc, tags, test)?;
    match (is_void(&yes), is_void(&no)) {
        (true, true) => choice(alloc, Ty::Void, line, test, tree_of(yes), tree_of(no)),
        (false, false) => chosen_values(alloc, tags, test, yes, no, line),
        _ => Err(Refused::Constraint(Reason::ConditionalOperands)),
    }
}

// The last operand of a comma with its type: its value, or a void expression (6.5.17p2).
#[tactic(auto, unfolding(crate::specs::Choices::last))]
fn last(alloc: Global, tags: &Tags, operand: Operand) -> Result<(Typed, Ty), Refused>
    ensures { Gives spec.last_of result (spec.last (layouts tags.now) (expression_of operand)) }
{
    if is_void(&operand) {
        return Ok((tree_of(operand), Ty::Void));
    }
    let tree = value_of(alloc, tags, operand)?;
    let ty = copied(alloc, &tree.ty)?;
    Ok((tree, ty))
}

// The operands of a comma but the last (6.5.17p2).
fn without_values(
    alloc: Global,
    tags: &Tags,
    operands: Vec<Operand>,
) -> Result<Items<Typed>, Refused>
    ensures { Gives terms_of result (spec.without_values (layouts tags.now) (map expression_of operands.items)) }
{
    let mut children = Items::new(alloc);
    for operand in operands {
        children.push(discarded(alloc, tags, operand)?)?;
    }
    Ok(children)
}

fn comma(ty: Ty, line: u32, children: Items<Typed>) -> Operand
    ensures { expression_of result ≡ spec.comma (type_of ty) line (terms_of children) }
{
    value(Typed {
        node: Node::Comma,
        ty,
        line,
        children,
    })
}

/// `a, b, ..`: the value of the last operand (6.5.17). At least one operand.
pub fn sequenced(
    alloc: Global,
    tags: &Tags,
    mut operands: Vec<Operand>,
    line: u32,
) -> Result<Operand, Refused>
    ensures { Gives expression_of result (spec.sequenced (layouts tags.now) (map expression_of operands.items) line) }
{
    let Some(operand) = operands.pop() else {
        return Err(Refused::Constraint(Reason::VoidValue));
    };
    let mut children = without_values(alloc, tags, operands)?;
    let (tree, ty) = last(alloc, tags, operand)?;
    children.push(tree)?;
    Ok(comma(ty, line, children))
}
