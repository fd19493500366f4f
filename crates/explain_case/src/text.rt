// Pieces of text.

use crate::case::Case;
use crate::page::put_tokens;
use c_typed::Typed;
use c_types::{IntKind, Ty};
use explain_facts::{Opened, tree_at};
use explain_page::{Page, put_number, put_type};
use explain_places::{extent_of, function_of, token_of};
use ub_base::{Bytes, NoMemory};

/// Adds a number with its sign.
pub fn put_integer(out: &mut Bytes, number: i128) -> Result<(), NoMemory> {
    if number < 0 {
        out.push(b'-')?;
    }
    match u64::try_from(number.unsigned_abs()) {
        Ok(number) => put_number(out, number),
        Err(_) => out.append(b"(a number of more than 64 bits)"),
    }
}

fn begins_with_vowel(kind: IntKind) -> bool {
    match kind {
        IntKind::Int
        | IntKind::UChar
        | IntKind::UShort
        | IntKind::UInt
        | IntKind::ULong
        | IntKind::ULLong => true,
        _ => false,
    }
}

/// Adds a type with its article.
pub fn put_a_type(out: &mut Bytes, page: &Page<'_, '_>, ty: &Ty) -> Result<(), NoMemory> {
    match ty {
        Ty::Int(kind) if begins_with_vowel(*kind) => out.append(b"an ")?,
        Ty::Enum(_) => out.append(b"an ")?,
        _ => out.append(b"a ")?,
    }
    put_type(out, page, ty)
}

/// Adds the tokens of a node.
pub fn put_tree(out: &mut Bytes, page: &Page<'_, '_>, tree: &Typed) -> Result<(), NoMemory> {
    put_tokens(out, page, &extent_of(page.tokens, tree))
}

/// Adds the name of the function in which a token stands.
pub fn put_function(out: &mut Bytes, page: &Page<'_, '_>, token: u32) -> Result<(), NoMemory> {
    match function_of(page.tokens, token) {
        Some(name) => out.append(page.spelling(name)),
        None => out.append(b"the program"),
    }
}

/// The first token of a node of an open full expression.
pub fn token_at(case: &Case<'_, '_>, opened: Opened, node: u32) -> Option<u32> {
    let tree = tree_at(case.roots, opened.tree, node)?;
    Some(token_of(tree.line))
}
