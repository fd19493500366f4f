// Types as C writes them.

use crate::page::Page;
use crate::shown::put_number;
use c_lex::TokenKind;
use c_types::{IntKind, Qual, Ty};
use ub_base::{Bytes, NoMemory};

fn kind_words(kind: IntKind) -> &'static [u8] {
    match kind {
        IntKind::Bool => b"_Bool",
        IntKind::Char => b"char",
        IntKind::SChar => b"signed char",
        IntKind::UChar => b"unsigned char",
        IntKind::Short => b"short",
        IntKind::UShort => b"unsigned short",
        IntKind::Int => b"int",
        IntKind::UInt => b"unsigned int",
        IntKind::Long => b"long",
        IntKind::ULong => b"unsigned long",
        IntKind::LLong => b"long long",
        IntKind::ULLong => b"unsigned long long",
    }
}

fn put_star(out: &mut Bytes) -> Result<(), NoMemory> {
    let after_star = match out.as_slice().last() {
        Some(byte) => *byte == b'*',
        None => false,
    };
    if !after_star {
        out.push(b' ')?;
    }
    out.push(b'*')
}

#[cycle(written)]
fn put_qualified(
    out: &mut Bytes,
    page: &Page<'_, '_>,
    qual: &Qual,
    left: u32,
) -> Result<(), NoMemory> {
    if qual.constant {
        out.append(b"const ")?;
    }
    put_within(out, page, &qual.ty, left)
}

fn put_count(out: &mut Bytes, count: Option<u64>) -> Result<(), NoMemory> {
    out.push(b'[')?;
    if let Some(count) = count {
        put_number(out, count)?;
    }
    out.push(b']')
}

#[cycle(written)]
fn put_target(
    out: &mut Bytes,
    page: &Page<'_, '_>,
    target: &Qual,
    left: u32,
) -> Result<(), NoMemory> {
    match &target.ty {
        Ty::Array(_, _) | Ty::Function(_) => {
            out.append(b"pointer to ")?;
            put_qualified(out, page, target, left)
        }
        _ => {
            put_qualified(out, page, target, left)?;
            put_star(out)
        }
    }
}

// Adds the keyword of a structure or union, and its name where it has one.
fn put_tag(
    out: &mut Bytes,
    page: &Page<'_, '_>,
    keyword: &[u8],
    number: u32,
) -> Result<(), NoMemory> {
    out.append(keyword)?;
    match page.tags.get(number as usize) {
        Some(name) if page.tokens.kind(*name) == Some(TokenKind::Name) => {
            out.push(b' ')?;
            out.append(page.spelling(*name))
        }
        _ => Ok(()),
    }
}

// So many levels of the type at most.
#[cycle(written)]
fn put_within(out: &mut Bytes, page: &Page<'_, '_>, ty: &Ty, left: u32) -> Result<(), NoMemory> {
    if left == 0 {
        return out.append(b"..");
    }
    let left = left.saturating_sub(1);
    match ty {
        Ty::Void => out.append(b"void"),
        Ty::Int(kind) => out.append(kind_words(*kind)),
        Ty::Enum(_) => out.append(b"enum"),
        Ty::Struct(tag) => put_tag(out, page, b"struct", *tag),
        Ty::Union(tag) => put_tag(out, page, b"union", *tag),
        Ty::Function(_) => out.append(b"function"),
        Ty::Pointer(target) => put_target(out, page, target.get(), left),
        Ty::Array(element, count) => {
            put_qualified(out, page, element.get(), left)?;
            put_count(out, *count)
        }
    }
}

/// Adds a type; where a structure or union has a tag, its name is behind its keyword.
pub fn put_type(out: &mut Bytes, page: &Page<'_, '_>, ty: &Ty) -> Result<(), NoMemory> {
    put_within(out, page, ty, 20)
}
