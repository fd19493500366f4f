// Objects with their initializers (6.7.9).

use crate::initial::{braced, is_text_array, lone_expression, lone_text, scalar_reason, text};
use c_ast::{Expr, ExprNode, Init, InitEntry};
use c_typed::{Constant, Content, Slot, Typed};
use c_types::{Qual, Ty, copied};
use type_assignments::stored;
use type_conversions::is_scalar;
use type_expressions::expression::expression;
use type_listing::{
    Given, Listed, Listing, Spot, keep_literal, list_constants, list_node, object_place,
    part_reason, static_content,
};
use type_reasons::Reason;
use type_scope::{Source, State, TypeFault, placed_for};
use ub_base::{Bytes, Items};

// The form that an initializer has for its object.
enum Shape<'a> {
    Expression(&'a Expr),
    Text(u32, u32),
    List(u32, &'a [InitEntry]),
}

fn text_of(e: &Expr) -> Option<(u32, u32)> {
    match &e.node {
        ExprNode::Strings(first, count) => Some((*first, *count)),
        _ => None,
    }
}

// Why the expression initializes no array.
fn array_reason(e: &Expr) -> Reason {
    match text_of(e) {
        Some(_) => Reason::TextInitializer,
        None => Reason::ListInitializer,
    }
}

// Of an expression without braces: for an array only a string (6.7.9p11, 6.7.9p13, 6.7.9p14).
fn single_shape<'a>(source: &Source<'_>, ty: &Ty, e: &'a Expr) -> Result<Shape<'a>, TypeFault> {
    match ty {
        Ty::Array(_, _) => match text_of(e) {
            Some((first, count)) if is_text_array(ty) => Ok(Shape::Text(first, count)),
            _ => Err(source.fault(e.at, array_reason(e))),
        },
        _ => Ok(Shape::Expression(e)),
    }
}

fn shape_of<'a>(source: &Source<'_>, ty: &Ty, init: &'a Init) -> Result<Shape<'a>, TypeFault> {
    match init {
        Init::Single(e) => single_shape(source, ty, e),
        Init::Braced { at, entries } => {
            let entries = entries.as_slice();
            if is_scalar(ty) {
                return match lone_expression(entries) {
                    Some(e) => Ok(Shape::Expression(e)),
                    None => Err(source.fault(*at, scalar_reason(entries))),
                };
            }
            if is_text_array(ty)
                && let Some((first, count)) = lone_text(entries)
            {
                return Ok(Shape::Text(first, count));
            }
            if entries.is_empty() {
                return Err(source.fault(*at, Reason::EmptyList));
            }
            Ok(Shape::List(*at, entries))
        }
    }
}

// The type with its count of elements, where it is an array without one (6.7.9p22).
fn completed(qual: Qual, count: u64) -> Qual {
    let Qual { ty, constant } = qual;
    let ty = match ty {
        Ty::Array(element, None) => Ty::Array(element, Some(count)),
        ty => ty,
    };
    Qual { ty, constant }
}

fn text_part(ty: Ty, bytes: Bytes, line: u32) -> Listed {
    Listed {
        offset: 0,
        size: bytes.len() as u64,
        ty,
        line,
        given: Given::Content(Content::Bytes(bytes)),
    }
}

// The list of a string, and the object's type then.
fn text_listing(
    source: &Source<'_>,
    state: &State,
    qual: Qual,
    text_at: (u32, u32),
    fixed: bool,
) -> Result<(Listing, Qual), TypeFault> {
    let alloc = state.alloc;
    let (first, count) = text_at;
    let bytes = text(source, alloc, first, count, &qual.ty)?;
    let length = bytes.len() as u64;
    let mut listing = Listing::new(alloc, fixed);
    let ty = copied(alloc, &qual.ty)?;
    listing.add(text_part(ty, bytes, source.line(first)))?;
    Ok((listing, completed(qual, length)))
}

// The list in braces, and the object's type then.
fn braced_listing(
    source: &Source<'_>,
    state: &mut State,
    qual: Qual,
    entries: &[InitEntry],
    fixed: bool,
) -> Result<(Listing, Qual), TypeFault> {
    let alloc = state.alloc;
    let mut listing = Listing::new(alloc, fixed);
    let spot = Spot {
        ty: copied(alloc, &qual.ty)?,
        offset: 0,
    };
    let reached = braced(source, state, entries, &mut listing, spot)?;
    Ok((listing, completed(qual, reached)))
}

// Whether the object's type is complete (6.7p7).
fn is_complete(state: &State, qual: &Qual) -> bool {
    state.tags.extent(&qual.ty).is_some()
}

fn complete_or_fault(
    source: &Source<'_>,
    state: &State,
    qual: Qual,
    at: u32,
) -> Result<Qual, TypeFault> {
    if is_complete(state, &qual) {
        Ok(qual)
    } else {
        Err(source.fault(at, Reason::InitializedEntity))
    }
}

fn stored_value(
    source: &Source<'_>,
    state: &mut State,
    slot: Slot,
    qual: &Qual,
    e: &Expr,
) -> Result<Typed, TypeFault> {
    let alloc = state.alloc;
    let line = source.line(e.at);
    let operand = expression(source, state, e)?;
    let place = object_place(alloc, slot, qual, line)?;
    let ty = copied(alloc, &qual.ty)?;
    placed_for(
        line,
        part_reason(&qual.ty),
        stored(alloc, &state.tags, true, place, ty, operand, line),
    )
}

/// The tree of an automatic object's initializer, and the object's type then; `at` is the token of its name.
pub fn automatic(
    source: &Source<'_>,
    state: &mut State,
    slot: Slot,
    qual: Qual,
    init: &Init,
    at: u32,
) -> Result<(Typed, Qual), TypeFault> {
    match shape_of(source, &qual.ty, init)? {
        Shape::Expression(e) => {
            let qual = complete_or_fault(source, state, qual, at)?;
            Ok((stored_value(source, state, slot, &qual, e)?, qual))
        }
        Shape::Text(first, count) => {
            let (listing, qual) = text_listing(source, state, qual, (first, count), false)?;
            let qual = complete_or_fault(source, state, qual, at)?;
            Ok((
                list_node(state, slot, &qual, listing, source.line(first))?,
                qual,
            ))
        }
        Shape::List(open, entries) => {
            let (listing, qual) = braced_listing(source, state, qual, entries, false)?;
            let qual = complete_or_fault(source, state, qual, at)?;
            Ok((
                list_node(state, slot, &qual, listing, source.line(open))?,
                qual,
            ))
        }
    }
}

fn size_of(state: &State, ty: &Ty) -> u64 {
    match state.tags.extent(ty) {
        Some(extent) => extent.size,
        None => 0,
    }
}

fn constant_value(
    source: &Source<'_>,
    state: &mut State,
    qual: &Qual,
    e: &Expr,
) -> Result<Items<Constant>, TypeFault> {
    let mark = state.mark();
    let operand = expression(source, state, e)?;
    let size = size_of(state, &qual.ty);
    let mut content = static_content(state, operand, &qual.ty, size, source.line(e.at))?;
    keep_literal(state, mark, &mut content)?;
    let mut constants = Items::new(state.alloc);
    constants.push(Constant { at: 0, content })?;
    Ok(constants)
}

/// The constants of a static object's initializer, and the object's type then; `at` is the token of its name.
pub fn fixed(
    source: &Source<'_>,
    state: &mut State,
    qual: Qual,
    init: &Init,
    at: u32,
) -> Result<(Items<Constant>, Qual), TypeFault> {
    match shape_of(source, &qual.ty, init)? {
        Shape::Expression(e) => {
            let qual = complete_or_fault(source, state, qual, at)?;
            Ok((constant_value(source, state, &qual, e)?, qual))
        }
        Shape::Text(first, count) => {
            let (listing, qual) = text_listing(source, state, qual, (first, count), true)?;
            let qual = complete_or_fault(source, state, qual, at)?;
            Ok((
                list_constants(state.alloc, listing, source.line(first))?,
                qual,
            ))
        }
        Shape::List(open, entries) => {
            let (listing, qual) = braced_listing(source, state, qual, entries, true)?;
            let qual = complete_or_fault(source, state, qual, at)?;
            Ok((
                list_constants(state.alloc, listing, source.line(open))?,
                qual,
            ))
        }
    }
}

/// Gives a static object its initializer; one alone (6.9p3, 6.9p5).
pub fn initialize(
    source: &Source<'_>,
    state: &mut State,
    number: u32,
    qual: Qual,
    init: &Init,
    at: u32,
) -> Result<Qual, TypeFault> {
    let (constants, qual) = fixed(source, state, qual, init, at)?;
    let mut twice = Reason::ExternalDefinition;
    if let Some(row) = state.objects.get_mut(number as usize) {
        if !row.initialized {
            row.initialized = true;
            row.constants = constants;
            return Ok(qual);
        }
        if row.internal {
            twice = Reason::InternalDefinition;
        }
    }
    Err(source.fault(at, twice))
}
