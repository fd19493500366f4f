// The first conversion of a format that is given another type than it takes.

use crate::case::{Act, Case};
use crate::text::put_a_type;
use c_lex::TokenKind;
use c_typed::{Node, Typed};
use c_types::{IntKind, Ty};
use explain_page::{Page, Stretch};
use explain_places::token_of;
use ub_base::{Bytes, Clause, NoMemory};

/// A conversion, what it takes, and the argument that it is given.
#[derive(Clone, Copy)]
pub struct Mismatch<'p> {
    pub stretch: Stretch,
    pub takes: Taken,
    pub given: &'p Typed,
}

/// What a conversion takes (7.21.6.1p8).
#[derive(Clone, Copy, PartialEq, Eq)]
pub enum Taken {
    Integer(IntKind),
    Text,
    Pointer,
}

// A directive: where it begins and ends in its literal, how many `*` it has, and what it takes besides.
#[derive(Clone, Copy)]
struct Directive {
    start: usize,
    end: usize,
    stars: usize,
    takes: Option<Taken>,
}

// The length modifier of a directive.
#[derive(Clone, Copy, PartialEq, Eq)]
enum Length {
    Plain,
    Long,
    LongLong,
}

fn signed(length: Length) -> IntKind {
    match length {
        Length::Plain => IntKind::Int,
        Length::Long => IntKind::Long,
        Length::LongLong => IntKind::LLong,
    }
}

fn unsigned(length: Length) -> IntKind {
    match length {
        Length::Plain => IntKind::UInt,
        Length::Long => IntKind::ULong,
        Length::LongLong => IntKind::ULLong,
    }
}

fn taken_by(byte: u8, length: Length) -> Option<Taken> {
    match byte {
        b'd' | b'i' => Some(Taken::Integer(signed(length))),
        b'u' | b'o' | b'x' | b'X' => Some(Taken::Integer(unsigned(length))),
        b'c' => Some(Taken::Integer(IntKind::Int)),
        b's' => Some(Taken::Text),
        b'p' => Some(Taken::Pointer),
        _ => None,
    }
}

fn lengthened(length: Length, byte: u8) -> Length {
    match (byte, length) {
        (b'l', Length::Plain) | (b'z' | b'j' | b't', _) => Length::Long,
        (b'l', Length::Long) => Length::LongLong,
        _ => length,
    }
}

fn is_between(byte: u8) -> bool {
    byte.is_ascii_digit()
        || matches!(
            byte,
            b'-' | b'+' | b' ' | b'#' | b'.' | b'*' | b'h' | b'l' | b'z' | b'j' | b't'
        )
}

// The directive whose `%` stands there.
fn directive_at(literal: &[u8], start: usize) -> Directive {
    let mut stars = 0usize;
    let mut length = Length::Plain;
    for (at, byte) in literal.iter().enumerate() {
        if at > start {
            if !is_between(*byte) {
                return Directive {
                    start,
                    end: at.saturating_add(1),
                    stars,
                    takes: taken_by(*byte, length),
                };
            }
            if *byte == b'*' {
                stars = stars.saturating_add(1);
            }
            length = lengthened(length, *byte);
        }
    }
    Directive {
        start,
        end: literal.len(),
        stars,
        takes: None,
    }
}

fn is_text(ty: &Ty) -> bool {
    match ty {
        Ty::Pointer(target) => match &target.get().ty {
            Ty::Int(kind) => matches!(kind, IntKind::Char | IntKind::SChar | IntKind::UChar),
            _ => false,
        },
        _ => false,
    }
}

fn is_pointer(ty: &Ty) -> bool {
    matches!(ty, Ty::Pointer(_))
}

// Whether an argument of this type is one that the conversion takes; an integer of the other signedness is passed over here.
fn suits(takes: Taken, ty: &Ty) -> bool {
    match (takes, ty) {
        (Taken::Integer(kind), Ty::Int(given)) => kind.unsigned_form() == given.unsigned_form(),
        (Taken::Integer(kind), Ty::Enum(_)) => kind.unsigned_form() == IntKind::UInt,
        (Taken::Text, _) => is_text(ty),
        (Taken::Pointer, _) => is_pointer(ty),
        _ => false,
    }
}

fn part_of(page: &Page<'_, '_>, token: u32, directive: &Directive) -> Stretch {
    let base = page.start(token);
    let start = base.saturating_add(directive.start);
    let end = base.saturating_add(directive.end);
    Stretch {
        start,
        end,
        operator: start,
        operator_end: end,
        line: page.line(token),
    }
}

// The first conversion of a literal whose argument doesn't suit, the first argument having this number.
fn mismatch_in<'p>(
    page: &Page<'_, '_>,
    call: &'p Typed,
    token: u32,
    first: usize,
) -> Option<Mismatch<'p>> {
    let literal = page.spelling(token);
    let mut argument = first;
    let mut from = 0usize;
    for (at, byte) in literal.iter().enumerate() {
        if at >= from && *byte == b'%' {
            let directive = directive_at(literal, at);
            from = directive.end;
            argument = argument.saturating_add(directive.stars);
            if let Some(takes) = directive.takes {
                let given = call.children.get(argument)?;
                if !suits(takes, &given.ty) {
                    return Some(Mismatch {
                        stretch: part_of(page, token, &directive),
                        takes,
                        given,
                    });
                }
                argument = argument.saturating_add(1);
            }
        }
    }
    None
}

// Whether an argument is a literal, maybe converted.
fn is_literal(tree: &Typed) -> bool {
    match &tree.node {
        Node::Str(_) => true,
        Node::Conv(_) => match tree.children.get(0) {
            Some(operand) => matches!(&operand.node, Node::Str(_)),
            None => false,
        },
        _ => false,
    }
}

// The number of the operand that is the format, where that is one literal.
fn format_of(page: &Page<'_, '_>, call: &Typed) -> Option<(usize, u32)> {
    for (number, operand) in call.children.as_slice().iter().enumerate() {
        let token = token_of(operand.line);
        if is_literal(operand)
            && page.tokens.kind(token) == Some(TokenKind::StringLit)
            && page.tokens.kind(token.saturating_add(1)) != Some(TokenKind::StringLit)
        {
            return Some((number, token));
        }
    }
    None
}

/// The conversion that breaks 7.21.6.1p9, where the format is a literal and the type tells it.
pub fn mismatch_of<'c>(case: &Case<'c, '_>) -> Option<Mismatch<'c>> {
    if case.found.verdict.clause() != Some(Clause::Conversion) || case.call.is_some() {
        return None;
    }
    let first: Act<'c> = case.first?;
    let (number, token) = format_of(case.page, first.tree)?;
    mismatch_in(case.page, first.tree, token, number.saturating_add(1))
}

/// Adds what a conversion takes.
pub fn put_taken(out: &mut Bytes, page: &Page<'_, '_>, takes: Taken) -> Result<(), NoMemory> {
    match takes {
        Taken::Integer(kind) => put_a_type(out, page, &Ty::Int(kind)),
        Taken::Text => out.append(b"a pointer to characters"),
        Taken::Pointer => out.append(b"a pointer to void"),
    }
}

/// Adds which conversion takes what, and what it is given.
pub fn put_mismatch(
    out: &mut Bytes,
    page: &Page<'_, '_>,
    mismatch: &Mismatch<'_>,
) -> Result<(), NoMemory> {
    out.append(page.between(mismatch.stretch.start, mismatch.stretch.end))?;
    out.append(b" takes ")?;
    put_taken(out, page, mismatch.takes)?;
    out.append(b" and is given ")?;
    put_a_type(out, page, &mismatch.given.ty)
}

/// What prints a value of this type.
pub fn printing(ty: &Ty) -> Option<&'static str> {
    match ty {
        Ty::Int(IntKind::ULong) => Some("`%lu` prints an unsigned long, `%zu` a size_t."),
        Ty::Int(IntKind::Long) => Some("`%ld` prints a long."),
        Ty::Int(IntKind::ULLong) => Some("`%llu` prints an unsigned long long."),
        Ty::Int(IntKind::LLong) => Some("`%lld` prints a long long."),
        Ty::Int(IntKind::UInt) => Some("`%u` prints an unsigned int."),
        Ty::Int(IntKind::Int) => Some("`%d` prints an int."),
        _ => None,
    }
}
