// Expressions, and the declarations inside them: type names, specifiers and declarators (6.5, 6.7.2 to 6.7.7).

use crate::apply;
use c_ast::{
    AssignOp, Base, BinaryOp, Declarator, Enumerator, Expr, ExprNode, MemberEntry, Param, PostOp,
    Specs, TypeName, UnaryOp,
};
use c_types::Qual;
use type_declarators::declarator::{Declared, Derivation};
use type_declarators::tag::MemberList;
use type_declarators::words::{Storage, Words, read_words};
use type_declarators::{declarator, literal, tag};
use type_operands::Operand;
use type_reasons::Reason;
use type_scope::{Source, State, TypeFault};
use ub_base::Items;

/// An expression (6.5). What follows a first operand is read by a function of its own that isn't inlined, so that a level of
/// nesting costs the host's stack little.
#[cycle(expression)]
pub fn expression(source: &Source<'_>, state: &mut State, e: &Expr) -> Result<Operand, TypeFault> {
    let line = source.line(e.at);
    match &e.node {
        ExprNode::Name(at) => apply::named(source, state, *at),
        ExprNode::Number(at) => literal::number(state.alloc, source, *at),
        ExprNode::CharLit(at) => literal::character(state.alloc, source, *at),
        ExprNode::Strings(first, count) => literal::strings(source, state, *first, *count),
        ExprNode::Unary(op, a) => unary(source, state, a.get(), *op, line),
        ExprNode::Postfix(op, a) => postfix(source, state, a.get(), *op, line),
        ExprNode::Binary(op, a, b) => {
            let a = expression(source, state, a.get())?;
            binary(source, state, b.get(), *op, a, line)
        }
        ExprNode::Assign(op, a, b) => {
            let a = expression(source, state, a.get())?;
            assignment(source, state, b.get(), *op, a, line)
        }
        ExprNode::Cond(a, b, c) => {
            let a = expression(source, state, a.get())?;
            let b = expression(source, state, b.get())?;
            conditional(source, state, c.get(), a, b, line)
        }
        ExprNode::Comma(operands) => {
            let operands = expressions(source, state, operands.as_slice())?;
            apply::sequence(state, operands, line)
        }
        ExprNode::Call(f, arguments) => {
            let f = expression(source, state, f.get())?;
            let arguments = expressions(source, state, arguments.as_slice())?;
            apply::call(state, f, arguments, line)
        }
        ExprNode::Index(a, b) => {
            let a = expression(source, state, a.get())?;
            subscript(source, state, b.get(), a, line)
        }
        ExprNode::Dot(a, name) => member(source, state, a.get(), false, *name, line),
        ExprNode::Arrow(a, name) => member(source, state, a.get(), true, *name, line),
        ExprNode::Cast(to, a) => {
            let to = type_name(source, state, to.get(), e.at)?;
            cast(source, state, a.get(), to, line)
        }
        ExprNode::SizeofExpr(a) => size_of_operand(source, state, a.get(), line),
        ExprNode::SizeofType(ty) => size_of_type(source, state, ty.get(), e.at),
        ExprNode::AlignofType(ty) => alignment_of_type(source, state, ty.get(), e.at),
    }
}

// A unary operator and its operand (6.5.3).
#[cycle(expression)]
#[inline(never)]
fn unary(
    source: &Source<'_>,
    state: &mut State,
    a: &Expr,
    op: UnaryOp,
    line: u32,
) -> Result<Operand, TypeFault> {
    let a = expression(source, state, a)?;
    apply::unary(state, op, a, line)
}

// An operand with `++` or `--` behind it (6.5.2.4).
#[cycle(expression)]
#[inline(never)]
fn postfix(
    source: &Source<'_>,
    state: &mut State,
    a: &Expr,
    op: PostOp,
    line: u32,
) -> Result<Operand, TypeFault> {
    let a = expression(source, state, a)?;
    apply::postfix(state, op, a, line)
}

// A binary operator behind its left operand (6.5.5 to 6.5.14).
#[cycle(expression)]
#[inline(never)]
fn binary(
    source: &Source<'_>,
    state: &mut State,
    b: &Expr,
    op: BinaryOp,
    a: Operand,
    line: u32,
) -> Result<Operand, TypeFault> {
    let b = expression(source, state, b)?;
    apply::binary(state, op, a, b, line)
}

// An assignment behind its left operand (6.5.16).
#[cycle(expression)]
#[inline(never)]
fn assignment(
    source: &Source<'_>,
    state: &mut State,
    b: &Expr,
    op: AssignOp,
    a: Operand,
    line: u32,
) -> Result<Operand, TypeFault> {
    let b = expression(source, state, b)?;
    apply::assignment(state, op, a, b, line)
}

// A conditional expression behind its first two operands (6.5.15).
#[cycle(expression)]
#[inline(never)]
fn conditional(
    source: &Source<'_>,
    state: &mut State,
    c: &Expr,
    a: Operand,
    b: Operand,
    line: u32,
) -> Result<Operand, TypeFault> {
    let c = expression(source, state, c)?;
    apply::conditional(state, a, b, c, line)
}

// A subscript behind its first operand (6.5.2.1).
#[cycle(expression)]
#[inline(never)]
fn subscript(
    source: &Source<'_>,
    state: &mut State,
    b: &Expr,
    a: Operand,
    line: u32,
) -> Result<Operand, TypeFault> {
    let b = expression(source, state, b)?;
    apply::subscript(state, a, b, line)
}

// A member of a structure or union, or of what a pointer points to (6.5.2.3).
#[cycle(expression)]
#[inline(never)]
fn member(
    source: &Source<'_>,
    state: &mut State,
    a: &Expr,
    arrow: bool,
    name: u32,
    line: u32,
) -> Result<Operand, TypeFault> {
    let a = expression(source, state, a)?;
    apply::member(source, state, arrow, a, name, line)
}

// A cast behind its type (6.5.4).
#[cycle(expression)]
#[inline(never)]
fn cast(
    source: &Source<'_>,
    state: &mut State,
    a: &Expr,
    to: Qual,
    line: u32,
) -> Result<Operand, TypeFault> {
    let a = expression(source, state, a)?;
    apply::cast(state, a, &to.ty, line)
}

// `sizeof` before an expression, which isn't evaluated (6.5.3.4p2).
#[cycle(expression)]
#[inline(never)]
fn size_of_operand(
    source: &Source<'_>,
    state: &mut State,
    a: &Expr,
    line: u32,
) -> Result<Operand, TypeFault> {
    let mark = state.suspend();
    let a = expression(source, state, a)?;
    state.resume(mark);
    apply::size_of_operand(state, a, line)
}

// `sizeof` before a type name; `at` is its first token (6.5.3.4).
#[cycle(expression)]
#[inline(never)]
fn size_of_type(
    source: &Source<'_>,
    state: &mut State,
    ty: &TypeName,
    at: u32,
) -> Result<Operand, TypeFault> {
    let qual = type_name(source, state, ty, at)?;
    apply::size_of_type(state, &qual.ty, source.line(at))
}

// `_Alignof`; `at` is its first token (6.5.3.4p3).
#[cycle(expression)]
#[inline(never)]
fn alignment_of_type(
    source: &Source<'_>,
    state: &mut State,
    ty: &TypeName,
    at: u32,
) -> Result<Operand, TypeFault> {
    let qual = type_name(source, state, ty, at)?;
    apply::alignment_of_type(state, &qual.ty, source.line(at))
}

#[cycle(expression)]
fn expressions(
    source: &Source<'_>,
    state: &mut State,
    all: &[Expr],
) -> Result<Vec<Operand>, TypeFault> {
    let mut operands = Vec::new(state.alloc);
    for e in all {
        let operand = expression(source, state, e)?;
        operands.push(operand)?;
    }
    Ok(operands)
}

/// The value of an integer constant expression (6.6p6); another one is refused for this reason, or for one of its own.
#[cycle(expression)]
pub fn constant(
    source: &Source<'_>,
    state: &mut State,
    e: &Expr,
    reason: Reason,
) -> Result<i128, TypeFault> {
    let mark = state.mark();
    let operand = expression(source, state, e)?;
    state.forget_literals(mark);
    apply::constant_of(source, &operand, e.at, reason)
}

/// A type name; `at` is a token near it (6.7.7).
#[cycle(expression)]
pub fn type_name(
    source: &Source<'_>,
    state: &mut State,
    name: &TypeName,
    at: u32,
) -> Result<Qual, TypeFault> {
    let (words, base) = specified(source, state, &name.specs, at, false)?;
    if words.storage != Storage::None || words.function {
        return Err(source.fault(at, Reason::TypeName));
    }
    let Declared { name: _, qual } = declared(source, state, &name.declarator, base, at)?;
    Ok(qual)
}

/// What specifiers say and the type that they give; `at` is a token near them, and `alone` says that no declarator follows.
#[cycle(expression)]
pub fn specified(
    source: &Source<'_>,
    state: &mut State,
    specs: &Specs,
    at: u32,
    alone: bool,
) -> Result<(Words, Qual), TypeFault> {
    let words = read_words(specs.words.as_slice());
    let qual = match &specs.base {
        Base::Plain => declarator::plain_type(source, &words, at)?,
        Base::Typedef(name) => declarator::typedef_type(source, state, *name)?,
        Base::Tagged {
            union,
            tag,
            members,
        } => {
            let kind = tag::kind_of(*union);
            let ty = match members {
                None => {
                    let alone = alone && specs.words.is_empty();
                    tag::reference(source, state, kind, *tag, at, alone)?
                }
                Some(entries) => {
                    let number = tag::open(source, state, kind, *tag)?;
                    let list = structure(source, state, entries.as_slice(), at)?;
                    tag::close(source, state, kind, number, list, at)?
                }
            };
            declarator::unqualified(ty)
        }
        Base::Enumerated { tag, enumerators } => {
            let ty = match enumerators {
                None => tag::enumeration(source, state, *tag, at)?,
                Some(list) => {
                    let number = tag::open_enumeration(source, state, *tag)?;
                    enumerated(source, state, list.as_slice())?;
                    tag::close_enumeration(state, number)
                }
            };
            declarator::unqualified(ty)
        }
    };
    let qual = declarator::with_words(source, state.alloc, qual, &words, &specs.base, at)?;
    Ok((words, qual))
}

// The members of a structure or union (6.7.2.1).
#[cycle(expression)]
fn structure(
    source: &Source<'_>,
    state: &mut State,
    entries: &[MemberEntry],
    at: u32,
) -> Result<MemberList, TypeFault> {
    let mut list = MemberList::new(state.alloc);
    for entry in entries {
        list = fields(source, state, entry, list, at)?;
    }
    Ok(list)
}

#[cycle(expression)]
fn fields(
    source: &Source<'_>,
    state: &mut State,
    entry: &MemberEntry,
    list: MemberList,
    at: u32,
) -> Result<MemberList, TypeFault> {
    match entry {
        MemberEntry::Assertion(condition, message) => {
            let number = constant(source, state, condition, Reason::AssertionConstant)?;
            declarator::assertion(source, state.alloc, number, condition.at, *message)?;
            Ok(list)
        }
        MemberEntry::Fields(specs, declarators) => {
            let (words, base) = specified(source, state, specs, at, declarators.is_empty())?;
            tag::check_member_words(source, &words, at)?;
            if declarators.is_empty() {
                return tag::add_unnamed(source, state, specs, base, list, at);
            }
            members(source, state, declarators.as_slice(), base, list, at)
        }
    }
}

#[cycle(expression)]
fn members(
    source: &Source<'_>,
    state: &mut State,
    declarators: &[Declarator],
    base: Qual,
    list: MemberList,
    at: u32,
) -> Result<MemberList, TypeFault> {
    let mut list = list;
    for d in declarators {
        let base = declarator::copy(state, &base)?;
        let member = declared(source, state, d, base, at)?;
        list = tag::add_member(source, state, member, list, at)?;
    }
    Ok(list)
}

// The constants of an enumeration: each in scope behind itself (6.7.2.2).
#[cycle(expression)]
fn enumerated(
    source: &Source<'_>,
    state: &mut State,
    list: &[Enumerator],
) -> Result<(), TypeFault> {
    let mut before = None;
    for e in list {
        let value = match &e.value {
            None => None,
            Some(value) => Some(constant(source, state, value, Reason::EnumeratorValue)?),
        };
        before = Some(apply::enumeration_constant(source, state, e.name, value, before)?);
    }
    Ok(())
}

/// What a declarator declares, from the type in front of it; `at` is a token near it (6.7.6).
#[cycle(expression)]
pub fn declared(
    source: &Source<'_>,
    state: &mut State,
    d: &Declarator,
    base: Qual,
    at: u32,
) -> Result<Declared, TypeFault> {
    let mut parts = Vec::new(state.alloc);
    let name = derivations(source, state, d, at, &mut parts)?;
    let qual = declarator::derived(source, state, parts, base, at)?;
    Ok(Declared { name, qual })
}

// Reads the parts of a declarator, in the order of the text: the scope of a name that a size or a parameter list declares
// begins there (6.2.1p7). The answer is the name that the declarator declares.
#[cycle(expression)]
fn derivations(
    source: &Source<'_>,
    state: &mut State,
    d: &Declarator,
    at: u32,
    parts: &mut Vec<Derivation>,
) -> Result<Option<u32>, TypeFault> {
    match d {
        Declarator::Ident(name) => Ok(*name),
        Declarator::Pointer(words, d) => {
            let name = derivations(source, state, d.get(), at, parts)?;
            parts.push(declarator::pointer_part(source, words.as_slice(), at)?)?;
            Ok(name)
        }
        Declarator::Array(d, None) => {
            let name = derivations(source, state, d.get(), at, parts)?;
            parts.push(Derivation::Array(None))?;
            Ok(name)
        }
        Declarator::Array(d, Some(count)) => {
            let name = derivations(source, state, d.get(), at, parts)?;
            let number = constant(source, state, count.get(), Reason::LeftOutVariableLength)?;
            parts.push(Derivation::Array(Some(number)))?;
            Ok(name)
        }
        Declarator::Function(d, params, variadic) => {
            let name = derivations(source, state, d.get(), at, parts)?;
            let own = declarator::is_name(d.get());
            let params = prototype(source, state, params.as_slice(), *variadic, at, own)?;
            parts.push(Derivation::Function(params, *variadic))?;
            Ok(name)
        }
    }
}

// The types of the parameters, in a scope of their own. `own` says that the list stands behind the declared name (6.2.1p4).
#[cycle(expression)]
fn prototype(
    source: &Source<'_>,
    state: &mut State,
    params: &[Param],
    variadic: bool,
    at: u32,
    own: bool,
) -> Result<Items<Qual>, TypeFault> {
    state.enter_scope()?;
    let lone = params.len() == 1 && !variadic;
    let params = parameters(source, state, params, lone, at)?;
    state.leave_parameters(own)?;
    Ok(params)
}

// The types of the parameters, each in scope behind itself (6.7.6.3). `lone` says that the list has one item.
#[cycle(expression)]
fn parameters(
    source: &Source<'_>,
    state: &mut State,
    params: &[Param],
    lone: bool,
    at: u32,
) -> Result<Items<Qual>, TypeFault> {
    let mut quals = Items::new(state.alloc);
    for p in params {
        let (words, param) = parameter(source, state, p, at)?;
        if lone && declarator::is_void(&words, &param) {
            return Ok(quals);
        }
        let qual = declarator::parameter(source, state, &words, param, quals.len(), at)?;
        quals.push(qual)?;
    }
    Ok(quals)
}

#[cycle(expression)]
fn parameter(
    source: &Source<'_>,
    state: &mut State,
    param: &Param,
    at: u32,
) -> Result<(Words, Declared), TypeFault> {
    let (words, base) = specified(source, state, &param.specs, at, false)?;
    let found = declared(source, state, &param.declarator, base, at)?;
    Ok((words, found))
}
