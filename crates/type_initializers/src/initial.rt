// Initializers (6.7.9).
use c_ast::{Designator, Expr, ExprNode, Init, InitEntry};
use c_typed::Content;
use c_types::Ty;
use std::alloc::Global;
use type_conversions::is_scalar;
use type_declarators::literal::literal_bytes;
use type_expressions::expression::{constant, expression};
use type_listing::{Cursor, Given, Listed, Listing, Spot, keep_literal, next_spot, static_content};
use type_operands::{Form, Operand, object_of};
use type_reasons::Reason;
use type_scope::{Source, State, TypeFault};
use type_values::text_of;
use ub_base::{Bytes, NoMemory};

/// Whether the type is an array of a character type (6.7.9p14).
pub fn is_text_array(ty: &Ty) -> bool {
    match ty {
        Ty::Array(element, _) => match &element.get().ty {
            Ty::Int(kind) => kind.is_character(),
            _ => false,
        },
        _ => false,
    }
}

/// The string that initializes an array of characters; faulty where it is too long (6.7.9p2).
pub fn text(
    source: &Source<'_>,
    alloc: Global,
    first: u32,
    count: u32,
    ty: &Ty,
) -> Result<Bytes, TypeFault> {
    let bytes = literal_bytes(alloc, source, first, count)?;
    let room = match ty {
        Ty::Array(_, room) => *room,
        _ => None,
    };
    match text_of(bytes, room) {
        Some(bytes) => Ok(bytes),
        None => Err(source.fault(first, Reason::TooManyInitializers)),
    }
}

// The structure or union that the operand gives.
fn tag_of(ty: &Ty) -> Option<u32> {
    match ty {
        Ty::Struct(tag) | Ty::Union(tag) => Some(*tag),
        _ => None,
    }
}

fn operand_tag(operand: &Operand) -> Option<u32> {
    match operand.form {
        Form::Value => tag_of(&operand.tree.ty),
        Form::Place { register: _ } => {
            let object = object_of(&operand.tree.ty)?;
            tag_of(&object.ty)
        }
        Form::NullPointer | Form::Designator | Form::Void => None,
    }
}

// What stands in a list without braces round it.
#[derive(Clone, Copy)]
enum Wanted {
    Text,
    Tagged(u32),
    Scalar,
}

fn is_wanted_tag(tag: u32, wanted: Wanted) -> bool {
    match wanted {
        Wanted::Tagged(given) => tag == given,
        Wanted::Text | Wanted::Scalar => false,
    }
}

// Whether it initializes a part of this type itself, and not the first part of it (6.7.9p13, 6.7.9p14, 6.7.9p20).
fn suits(ty: &Ty, wanted: Wanted) -> bool {
    match ty {
        Ty::Array(_, _) => matches!(wanted, Wanted::Text) && is_text_array(ty),
        Ty::Struct(tag) | Ty::Union(tag) => is_wanted_tag(*tag, wanted),
        ty => is_scalar(ty),
    }
}

const DEEPEST: u32 = u32::MAX;

// The part that it initializes: the next one, or the first of its parts that it suits.
fn settle(
    source: &Source<'_>,
    state: &State,
    cursor: &mut Cursor,
    wanted: Wanted,
    at: u32,
) -> Result<Spot, TypeFault> {
    for _ in 0..DEEPEST {
        let spot = next_spot(source, state, cursor, at)?;
        if suits(&spot.ty, wanted) {
            return Ok(spot);
        }
        if is_scalar(&spot.ty) {
            return Err(source.fault(at, Reason::ScalarInitializer));
        }
        cursor.enter(spot)?;
    }
    Err(source.fault(at, Reason::TooManyInitializers))
}

fn size_of(state: &State, ty: &Ty) -> u64 {
    match state.tags.extent(ty) {
        Some(extent) => extent.size,
        None => 0,
    }
}

// Adds a part that an expression initializes.
fn add_value(
    source: &Source<'_>,
    state: &mut State,
    listing: &mut Listing,
    spot: Spot,
    e: &Expr,
    operand: Operand,
) -> Result<(), TypeFault> {
    let line = source.line(e.at);
    let size = size_of(state, &spot.ty);
    let Spot { ty, offset } = spot;
    let given = if listing.fixed {
        Given::Content(static_content(state, operand, &ty, size, line)?)
    } else {
        Given::Value(operand)
    };
    listing.add(Listed {
        offset,
        size,
        ty,
        line,
        given,
    })?;
    Ok(())
}

fn add_text(
    state: &State,
    listing: &mut Listing,
    spot: Spot,
    bytes: Bytes,
    line: u32,
) -> Result<(), NoMemory> {
    let Spot { ty, offset } = spot;
    listing.note_whole(offset, size_of(state, &ty))?;
    listing.add(Listed {
        offset,
        size: bytes.len() as u64,
        ty,
        line,
        given: Given::Content(Content::Bytes(bytes)),
    })
}

// An expression without braces.
fn single(
    source: &Source<'_>,
    state: &mut State,
    e: &Expr,
    listing: &mut Listing,
    cursor: &mut Cursor,
) -> Result<(), TypeFault> {
    if let ExprNode::Strings(first, count) = &e.node {
        let spot = settle(source, state, cursor, Wanted::Text, e.at)?;
        if is_text_array(&spot.ty) {
            let bytes = text(source, state.alloc, *first, *count, &spot.ty)?;
            return Ok(add_text(state, listing, spot, bytes, source.line(e.at))?);
        }
        let mark = state.mark();
        let operand = expression(source, state, e)?;
        add_value(source, state, listing, spot, e, operand)?;
        return Ok(keep(state, listing, mark)?);
    }
    let mark = state.mark();
    let operand = expression(source, state, e)?;
    let wanted = match operand_tag(&operand) {
        Some(tag) => Wanted::Tagged(tag),
        None => Wanted::Scalar,
    };
    let spot = settle(source, state, cursor, wanted, e.at)?;
    add_value(source, state, listing, spot, e, operand)?;
    Ok(keep(state, listing, mark)?)
}

// Of the literals of a constant expression keeps the one whose address it is.
fn keep(state: &mut State, listing: &mut Listing, mark: type_scope::Mark) -> Result<(), NoMemory> {
    if !listing.fixed {
        return Ok(());
    }
    match listing.parts.last_mut() {
        Some(
            Listed {
                offset: _,
                size: _,
                ty: _,
                line: _,
                given: Given::Content(content),
            },
        ) => keep_literal(state, mark, content),
        _ => Ok(()),
    }
}

// The one expression in braces round a scalar or a string.
fn lone(entries: &[InitEntry]) -> Option<&Expr> {
    match entries {
        [entry] if entry.designators.is_empty() => match &entry.init {
            Init::Single(e) => Some(e),
            Init::Braced { at: _, entries: _ } => None,
        },
        _ => None,
    }
}

/// The one string in braces round an array of characters.
pub fn lone_text(entries: &[InitEntry]) -> Option<(u32, u32)> {
    match &lone(entries)?.node {
        ExprNode::Strings(first, count) => Some((*first, *count)),
        _ => None,
    }
}

/// The one expression in braces round a scalar (6.7.9p11).
pub fn lone_expression(entries: &[InitEntry]) -> Option<&Expr> {
    lone(entries)
}

fn designator_reason(designator: &Designator) -> Reason {
    match designator {
        Designator::Member(_) => Reason::MemberDesignator,
        Designator::Element(_) => Reason::ElementDesignator,
    }
}

/// Why the entries in braces initialize no scalar: there is more than one, or none, or not an expression (6.7.9p1, 6.7.9p2,
/// 6.7.9p11).
pub fn scalar_reason(entries: &[InitEntry]) -> Reason {
    match entries {
        [] => Reason::EmptyList,
        [_] => Reason::ScalarInitializer,
        [_, ..] => Reason::TooManyInitializers,
    }
}

// Goes to the part that the designators name (6.7.9p6, 6.7.9p7).
fn designated(
    source: &Source<'_>,
    state: &mut State,
    cursor: &mut Cursor,
    designators: &[Designator],
) -> Result<(), TypeFault> {
    cursor.restart();
    for (i, designator) in designators.iter().enumerate() {
        let (at, inside) = place_of(source, designator);
        if i > 0 && !cursor.enter_next(state)? {
            return Err(inside);
        }
        let found = match designator {
            Designator::Member(name) => {
                cursor.to_member(state, source.spelling(*name), source.symbol(*name))?
            }
            Designator::Element(e) => {
                let number = constant(source, state, e, Reason::ElementDesignator)?;
                cursor.to_element(number)
            }
        };
        if !found {
            return Err(source.fault(at, designator_reason(designator)));
        }
    }
    Ok(())
}

fn place_of(source: &Source<'_>, designator: &Designator) -> (u32, TypeFault) {
    let at = match designator {
        Designator::Member(name) => *name,
        Designator::Element(e) => e.at,
    };
    (at, source.fault(at, designator_reason(designator)))
}

/// The entries of a list for an aggregate or union; the answer is how many elements of it were reached (6.7.9p16 to
/// 6.7.9p21).
#[cycle(initial)]
pub fn braced(
    source: &Source<'_>,
    state: &mut State,
    entries: &[InitEntry],
    listing: &mut Listing,
    spot: Spot,
) -> Result<u64, TypeFault> {
    listing.note_whole(spot.offset, size_of(state, &spot.ty))?;
    let mut cursor = Cursor::new(state.alloc, spot)?;
    for entry in entries {
        if !entry.designators.is_empty() {
            designated(source, state, &mut cursor, entry.designators.as_slice())?;
        }
        entry_at(source, state, &entry.init, listing, &mut cursor)?;
        cursor.pass(&mut listing.choices)?;
    }
    Ok(cursor.reached())
}

// One entry, at the cursor's next part.
#[cycle(initial)]
fn entry_at(
    source: &Source<'_>,
    state: &mut State,
    init: &Init,
    listing: &mut Listing,
    cursor: &mut Cursor,
) -> Result<(), TypeFault> {
    match init {
        Init::Single(e) => single(source, state, e, listing, cursor),
        Init::Braced { at, entries } => {
            let spot = next_spot(source, state, cursor, *at)?;
            let entries = entries.as_slice();
            if is_scalar(&spot.ty) {
                return match lone_expression(entries) {
                    Some(e) => single(source, state, e, listing, cursor),
                    None => Err(source.fault(*at, scalar_reason(entries))),
                };
            }
            if is_text_array(&spot.ty)
                && let Some((first, count)) = lone_text(entries)
            {
                let bytes = text(source, state.alloc, first, count, &spot.ty)?;
                return Ok(add_text(state, listing, spot, bytes, source.line(first))?);
            }
            if entries.is_empty() {
                return Err(source.fault(*at, Reason::EmptyList));
            }
            let _reached = braced(source, state, entries, listing, spot)?;
            Ok(())
        }
    }
}
