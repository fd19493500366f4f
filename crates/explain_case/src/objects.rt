// Objects by the names that the text gives them.

use crate::case::{Act, Case};
use crate::text::{put_function, put_tree, token_at};
use addr_map::Row;
use c_lex::{Mark, TokenKind, Tokens};
use c_typed::{Node, Slot, Typed};
use c_types::Ty;
use explain_facts::{Named, Touch, Trail};
use explain_page::{Page, put_number, put_type};
use explain_places::{declaration_of, function_of, token_of};
use ub_base::{Bytes, Item, NoMemory, ObjName};

/// The object that an item names.
pub fn object_of(item: Option<Item>) -> Option<ObjName> {
    match item {
        Some(Item::Read { object, .. } | Item::Write { object, .. }) => Some(object),
        Some(Item::Born(object) | Item::Dies(object) | Item::Alive(object)) => Some(object),
        _ => None,
    }
}

/// The object that a finding is about.
pub fn subject(case: &Case<'_, '_>) -> Option<ObjName> {
    let first = case.first?;
    match first.item {
        Some(item) => object_of(Some(item)),
        None => case.moment.place?.object,
    }
}

/// An object that the text names: the token of a name, and its type.
#[derive(Clone, Copy)]
pub struct NamedObject<'p> {
    pub name: u32,
    pub ty: &'p Ty,
}

// The name that a node of an object is, where it is one, or its address.
fn name_at(tokens: &Tokens<'_>, tree: &Typed) -> Option<u32> {
    let token = token_of(tree.line);
    let next = token.saturating_add(1);
    match (tokens.kind(token), tokens.kind(next)) {
        (Some(TokenKind::Name), _) => Some(token),
        (Some(TokenKind::Punct(Mark::Ampersand)), Some(TokenKind::Name)) => Some(next),
        _ => None,
    }
}

fn is_slot(tree: &Typed, slot: Slot) -> bool {
    match &tree.node {
        Node::Obj(found) => *found == slot,
        _ => false,
    }
}

// The number of the first operand that the text spells: the target of an initializer is spelled elsewhere.
fn first_spelled(tree: &Typed) -> usize {
    match &tree.node {
        Node::Assign {
            initializing: true,
            ..
        } => 1,
        _ => 0,
    }
}

// The first node in the tree that names this slot.
fn slot_in<'t>(tokens: &Tokens<'_>, tree: &'t Typed, slot: Slot) -> Option<NamedObject<'t>> {
    if is_slot(tree, slot) {
        return Some(NamedObject {
            name: name_at(tokens, tree)?,
            ty: type_of(tree),
        });
    }
    let first = first_spelled(tree);
    for (number, operand) in tree.children.as_slice().iter().enumerate() {
        if number >= first
            && let Some(found) = slot_in(tokens, operand, slot)
        {
            return Some(found);
        }
    }
    None
}

fn slot_among<'t>(
    tokens: &Tokens<'_>,
    roots: &[&'t Typed],
    named: Named,
) -> Option<NamedObject<'t>> {
    for (number, root) in roots.iter().enumerate() {
        if number >= named.first as usize
            && number <= named.last as usize
            && let Some(found) = slot_in(tokens, root, named.slot)
        {
            return Some(found);
        }
    }
    None
}

/// What a node loads from or stores to.
pub fn place_of(tree: &Typed) -> &Typed {
    match &tree.node {
        Node::Load(_) | Node::Assign { .. } | Node::Update { .. } => match tree.children.get(0) {
            Some(place) => place,
            None => tree,
        },
        _ => tree,
    }
}

/// How the text names this object, of which these are the deeds.
pub fn naming<'c>(case: &Case<'c, '_>, object: ObjName, trail: &Trail) -> Option<NamedObject<'c>> {
    match object {
        ObjName::Static(number) => slot_among(
            case.page.tokens,
            case.roots,
            Named {
                slot: Slot::Static(number),
                first: 0,
                last: u32::MAX,
            },
        ),
        _ => slot_among(case.page.tokens, case.roots, trail.named?),
    }
}

/// How the text names the object whose value was copied last to the bytes that are touched.
pub fn origin_naming<'c>(case: &Case<'c, '_>) -> Option<NamedObject<'c>> {
    naming(case, case.trail.source?, case.origin)
}

// Adds what an evaluation accesses: its name, or the tokens of the expression.
pub fn put_accessed(out: &mut Bytes, case: &Case<'_, '_>, act: &Act<'_>) -> Result<(), NoMemory> {
    match &act.tree.node {
        Node::Load(_) | Node::Assign { .. } | Node::Update { .. } => {
            put_tree(out, case.page, place_of(act.tree))
        }
        _ => put_subject(out, case),
    }
}

/// Adds the name of the object that a finding is about.
pub fn put_subject(out: &mut Bytes, case: &Case<'_, '_>) -> Result<(), NoMemory> {
    match subject_name(case) {
        Some(name) => out.append(case.page.spelling(name)),
        None => out.append(b"one object"),
    }
}

/// The token that names the object which a finding is about.
pub fn subject_name(case: &Case<'_, '_>) -> Option<u32> {
    let named = naming(case, subject(case)?, case.trail)?;
    Some(named.name)
}

/// The kind of storage of an object.
pub fn storage_of(object: ObjName) -> &'static [u8] {
    match object {
        ObjName::Static(_) => b"static",
        ObjName::Lit(_) => b"literal",
        ObjName::Argv | ObjName::Arg(_) => b"argument",
        ObjName::Auto { .. } => b"automatic",
        ObjName::Heap { .. } => b"allocated",
    }
}

// The type of an object that a node names.
fn type_of(named: &Typed) -> &Ty {
    match &named.ty {
        Ty::Pointer(target) => &target.get().ty,
        ty => ty,
    }
}

/// The bytes of an object.
pub fn size_of(case: &Case<'_, '_>, object: ObjName) -> u64 {
    match case.found.map.row(object) {
        Some(Row { size, .. }) => size,
        None => 0,
    }
}

// Adds the function and the place of a declaration.
fn put_declared(
    out: &mut Bytes,
    page: &Page<'_, '_>,
    object: ObjName,
    name: u32,
) -> Result<(), NoMemory> {
    if let ObjName::Auto { .. } = object
        && let Some(function) = function_of(page.tokens, name)
    {
        out.append(b" in ")?;
        out.append(page.spelling(function))?;
    }
    if let Some(at) = declaration_of(page.tokens, name) {
        out.append(b", declared at ")?;
        page.put_token_place(out, at)?;
    }
    Ok(())
}

/// How many elements of this type an object is an array of; none where it isn't one.
pub fn elements(case: &Case<'_, '_>, object: ObjName, ty: &Ty) -> Option<u64> {
    let extent = case.program.tags.extent(ty)?;
    let size = size_of(case, object);
    if extent.size == 0 || size == extent.size {
        return None;
    }
    Some(size / extent.size)
}

/// Adds the type of an object that the text names.
pub fn put_object_type(
    out: &mut Bytes,
    case: &Case<'_, '_>,
    object: ObjName,
    named: NamedObject<'_>,
) -> Result<(), NoMemory> {
    match (elements(case, object, named.ty), named.ty) {
        (None, _) => put_type(out, case.page, named.ty),
        (Some(count), Ty::Array(_, _)) => {
            put_number(out, count)?;
            out.append(b" times ")?;
            put_type(out, case.page, named.ty)
        }
        (Some(count), _) => {
            put_type(out, case.page, named.ty)?;
            out.push(b'[')?;
            put_number(out, count)?;
            out.push(b']')
        }
    }
}

// Adds so many bytes.
fn put_size(out: &mut Bytes, size: u64) -> Result<(), NoMemory> {
    put_number(out, size)?;
    if size == 1 {
        out.append(b" byte")
    } else {
        out.append(b" bytes")
    }
}

// Adds what is known of an object that a node names.
fn put_named(
    out: &mut Bytes,
    case: &Case<'_, '_>,
    object: ObjName,
    named: NamedObject<'_>,
) -> Result<(), NoMemory> {
    let name = named.name;
    out.append(case.page.spelling(name))?;
    out.append(b": ")?;
    put_object_type(out, case, object, named)?;
    out.append(b", ")?;
    put_size(out, size_of(case, object))?;
    out.append(b", ")?;
    out.append(storage_of(object))?;
    put_declared(out, case.page, object, name)
}

// Adds what is known of an object without a name.
fn put_unnamed(
    out: &mut Bytes,
    case: &Case<'_, '_>,
    object: ObjName,
    trail: &Trail,
) -> Result<(), NoMemory> {
    put_size(out, size_of(case, object))?;
    out.append(b", ")?;
    match object {
        ObjName::Lit(_) => out.append(b"a string literal"),
        ObjName::Argv | ObjName::Arg(_) => out.append(b"argument of the program"),
        ObjName::Heap { .. } => put_allocated(out, case, trail),
        _ => out.append(storage_of(object)),
    }
}

/// Adds what is known of an object of which these are the deeds.
pub fn put_object(
    out: &mut Bytes,
    case: &Case<'_, '_>,
    object: ObjName,
    trail: &Trail,
) -> Result<(), NoMemory> {
    match naming(case, object, trail) {
        Some(named) => put_named(out, case, object, named),
        None => put_unnamed(out, case, object, trail),
    }
}

/// Adds `by NAME at PLACE in FUNCTION` of a call.
pub fn put_by(out: &mut Bytes, case: &Case<'_, '_>, touch: &Touch) -> Result<(), NoMemory> {
    let Some(token) = token_at(case, touch.opened, touch.node) else {
        return Ok(());
    };
    out.append(b"by ")?;
    out.append(case.page.spelling(token))?;
    out.append(b" at ")?;
    case.page.put_token_place(out, token)?;
    out.append(b" in ")?;
    put_function(out, case.page, token)
}

// Adds `, called at PLACE from FUNCTION` of the call that led to an act.
fn put_caller(out: &mut Bytes, case: &Case<'_, '_>, touch: &Touch) -> Result<(), NoMemory> {
    let Some(caller) = touch.caller else {
        return Ok(());
    };
    let frame = touch.opened.frame;
    if frame.0 == 0 || frame.0 > case.found.frames.len() {
        return Ok(());
    }
    let (_, _, node) = case.found.frames.row(frame);
    let Some(token) = token_at(case, caller, node) else {
        return Ok(());
    };
    out.append(b", called at ")?;
    case.page.put_token_place(out, token)?;
    out.append(b" from ")?;
    put_function(out, case.page, token)
}

// Adds where an object was allocated.
fn put_allocated(out: &mut Bytes, case: &Case<'_, '_>, trail: &Trail) -> Result<(), NoMemory> {
    out.append(b"allocated")?;
    match &trail.born {
        Some(born) => {
            out.push(b' ')?;
            put_by(out, case, born)?;
            put_caller(out, case, born)
        }
        None => Ok(()),
    }
}
