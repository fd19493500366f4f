//! The nodes of the tree, each in memory of its own.

ghost use Rattle.std.specs.Prelude.{◌≡◌, Some, None, IfOk};
ghost use Rattle.parse_spec.specs.Expressions.{made};

use c_ast::{AssignOp, BinaryOp, Declarator, Expr, ExprNode, Param, PostOp, TypeName, UnaryOp};
use c_lex::Word;
use std::alloc::{AllocError, Global};
use ub_base::{Boxed, Items};

/// Two parts of one node. Where memory ends, both are let go here, whatever they are.
fn both<A: Drop, B: Drop>(alloc: Global, a: A, b: B) -> Result<(Boxed<A>, Boxed<B>), AllocError>
    ensures { IfOk result (λ p. p ≡ (a, b)) }
{
    let a = Boxed::new(alloc, a)?;
    let b = Boxed::new(alloc, b)?;
    Ok((a, b))
}

/// Three parts of one node.
fn all<A: Drop, B: Drop, C: Drop>(
    alloc: Global,
    a: A,
    b: B,
    c: C,
) -> Result<(Boxed<A>, Boxed<B>, Boxed<C>), AllocError>
    ensures { IfOk result (λ p. p ≡ (a, b, c)) }
{
    let (a, b) = both(alloc, a, b)?;
    let c = Boxed::new(alloc, c)?;
    Ok((a, b, c))
}

pub fn call(
    alloc: Global,
    at: u32,
    function: Expr,
    arguments: Items<Expr>,
) -> Result<Expr, AllocError>
    ensures { IfOk result (λ e. e ≡ made at (ExprNode.Call function arguments)) }
{
    let function = Boxed::new(alloc, function)?;
    let node = ExprNode::Call(function, arguments);
    Ok(Expr { at, node })
}

pub fn index(alloc: Global, at: u32, a: Expr, b: Expr) -> Result<Expr, AllocError>
    ensures { IfOk result (λ e. e ≡ made at (ExprNode.Index a b)) }
{
    let (a, b) = both(alloc, a, b)?;
    let node = ExprNode::Index(a, b);
    Ok(Expr { at, node })
}

pub fn dot(alloc: Global, at: u32, a: Expr, member: u32) -> Result<Expr, AllocError>
    ensures { IfOk result (λ e. e ≡ made at (ExprNode.Dot a member)) }
{
    let node = ExprNode::Dot(Boxed::new(alloc, a)?, member);
    Ok(Expr { at, node })
}

pub fn arrow(alloc: Global, at: u32, a: Expr, member: u32) -> Result<Expr, AllocError>
    ensures { IfOk result (λ e. e ≡ made at (ExprNode.Arrow a member)) }
{
    let node = ExprNode::Arrow(Boxed::new(alloc, a)?, member);
    Ok(Expr { at, node })
}

pub fn postfix(alloc: Global, at: u32, op: PostOp, a: Expr) -> Result<Expr, AllocError>
    ensures { IfOk result (λ e. e ≡ made at (ExprNode.Postfix op a)) }
{
    let node = ExprNode::Postfix(op, Boxed::new(alloc, a)?);
    Ok(Expr { at, node })
}

pub fn unary(alloc: Global, at: u32, op: UnaryOp, a: Expr) -> Result<Expr, AllocError>
    ensures { IfOk result (λ e. e ≡ made at (ExprNode.Unary op a)) }
{
    let node = ExprNode::Unary(op, Boxed::new(alloc, a)?);
    Ok(Expr { at, node })
}

pub fn binary(alloc: Global, at: u32, op: BinaryOp, a: Expr, b: Expr) -> Result<Expr, AllocError>
    ensures { IfOk result (λ e. e ≡ made at (ExprNode.Binary op a b)) }
{
    let (a, b) = both(alloc, a, b)?;
    let node = ExprNode::Binary(op, a, b);
    Ok(Expr { at, node })
}

pub fn assign(alloc: Global, at: u32, op: AssignOp, a: Expr, b: Expr) -> Result<Expr, AllocError>
    ensures { IfOk result (λ e. e ≡ made at (ExprNode.Assign op a b)) }
{
    let (a, b) = both(alloc, a, b)?;
    let node = ExprNode::Assign(op, a, b);
    Ok(Expr { at, node })
}

pub fn cond(alloc: Global, at: u32, a: Expr, b: Expr, c: Expr) -> Result<Expr, AllocError>
    ensures { IfOk result (λ e. e ≡ made at (ExprNode.Cond a b c)) }
{
    let (a, b, c) = all(alloc, a, b, c)?;
    let node = ExprNode::Cond(a, b, c);
    Ok(Expr { at, node })
}

pub fn cast(alloc: Global, at: u32, to: TypeName, a: Expr) -> Result<Expr, AllocError>
    ensures { IfOk result (λ e. e ≡ made at (ExprNode.Cast to a)) }
{
    let (to, a) = both(alloc, to, a)?;
    let node = ExprNode::Cast(to, a);
    Ok(Expr { at, node })
}

pub fn sizeof_expr(alloc: Global, at: u32, a: Expr) -> Result<Expr, AllocError>
    ensures { IfOk result (λ e. e ≡ made at (ExprNode.SizeofExpr a)) }
{
    let node = ExprNode::SizeofExpr(Boxed::new(alloc, a)?);
    Ok(Expr { at, node })
}

pub fn sizeof_type(alloc: Global, at: u32, of: TypeName) -> Result<Expr, AllocError>
    ensures { IfOk result (λ e. e ≡ made at (ExprNode.SizeofType of)) }
{
    let node = ExprNode::SizeofType(Boxed::new(alloc, of)?);
    Ok(Expr { at, node })
}

pub fn alignof_type(alloc: Global, at: u32, of: TypeName) -> Result<Expr, AllocError>
    ensures { IfOk result (λ e. e ≡ made at (ExprNode.AlignofType of)) }
{
    let node = ExprNode::AlignofType(Boxed::new(alloc, of)?);
    Ok(Expr { at, node })
}

pub fn pointer(
    alloc: Global,
    qualifiers: Items<Word>,
    inner: Declarator,
) -> Result<Declarator, AllocError>
    ensures { IfOk result (λ d. d ≡ Declarator.Pointer qualifiers inner) }
{
    Ok(Declarator::Pointer(qualifiers, Boxed::new(alloc, inner)?))
}

pub fn array(alloc: Global, inner: Declarator) -> Result<Declarator, AllocError>
    ensures { IfOk result (λ d. d ≡ Declarator.Array inner None) }
{
    Ok(Declarator::Array(Boxed::new(alloc, inner)?, None))
}

pub fn array_of(alloc: Global, inner: Declarator, size: Expr) -> Result<Declarator, AllocError>
    ensures { IfOk result (λ d. d ≡ Declarator.Array inner (Some size)) }
{
    let (inner, size) = both(alloc, inner, size)?;
    Ok(Declarator::Array(inner, Some(size)))
}

pub fn function(
    alloc: Global,
    inner: Declarator,
    params: Items<Param>,
    ellipsis: bool,
) -> Result<Declarator, AllocError>
    ensures { IfOk result (λ d. d ≡ Declarator.Function inner params ellipsis) }
{
    let inner = Boxed::new(alloc, inner)?;
    Ok(Declarator::Function(inner, params, ellipsis))
}
