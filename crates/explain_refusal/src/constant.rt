// What is const of an operand that is assigned to, as far as the tokens tell it.

use crate::refused::{Refusal, Rule, token_stretch};
use c_lex::{Mark, TokenKind, Word};
use explain_page::{Page, Stretch, put_excerpt};
use explain_places::{declaration_of, open_before};
use ub_base::{Bytes, NoMemory};

/// A declaration that makes an operand const. Tokens are named by their numbers.
#[derive(Clone, Copy, PartialEq, Eq)]
pub struct Constant {
    /// The declaration of the object that is const, or of the member.
    pub declared: Declared,
    /// The `const`.
    pub qualifier: u32,
    /// The member of it that is assigned to, where that isn't declared const itself.
    pub member: Option<Declared>,
}

/// A name that is declared: the name, the first token of its declaration, and the keyword of the structure or union that it is a
/// member of.
#[derive(Clone, Copy, PartialEq, Eq)]
pub struct Declared {
    pub name: u32,
    pub first: u32,
    pub owner: Option<u32>,
}

fn is_mark(page: &Page<'_, '_>, at: u32, mark: Mark) -> bool {
    page.tokens.kind(at) == Some(TokenKind::Punct(mark))
}

fn is_name(page: &Page<'_, '_>, at: u32) -> bool {
    page.tokens.kind(at) == Some(TokenKind::Name)
}

fn is_tag_word(kind: Option<TokenKind>) -> bool {
    matches!(kind, Some(TokenKind::Keyword(Word::Struct | Word::Union)))
}

// The keyword of the structure or union whose members this brace opens.
fn owner_of(page: &Page<'_, '_>, brace: u32) -> Option<u32> {
    let before = brace.saturating_sub(1);
    if is_tag_word(page.tokens.kind(before)) {
        Some(before)
    } else if is_name(page, before) && is_tag_word(page.tokens.kind(before.saturating_sub(1))) {
        Some(before.saturating_sub(1))
    } else {
        None
    }
}

fn ends_declaration(page: &Page<'_, '_>, at: u32) -> bool {
    is_mark(page, at, Mark::Semicolon)
        || is_mark(page, at, Mark::OpenBrace)
        || is_mark(page, at, Mark::CloseBrace)
        || is_mark(page, at, Mark::OpenParen)
}

// The first token of the declaration of the name at this token.
fn first_of(page: &Page<'_, '_>, name: u32) -> u32 {
    for back in 1..=name {
        let before = name.saturating_sub(back);
        if ends_declaration(page, before) {
            return before.saturating_add(1);
        }
    }
    0
}

// The keyword of the structure or union in which the name at this token is declared as a member.
fn membership(page: &Page<'_, '_>, at: u32) -> Option<u32> {
    let behind = at.saturating_add(1);
    let is_declarator = is_mark(page, behind, Mark::Semicolon)
        || is_mark(page, behind, Mark::Comma)
        || is_mark(page, behind, Mark::OpenBracket);
    if !is_name(page, at) || !is_declarator {
        return None;
    }
    owner_of(page, open_before(page.tokens, at)?)
}

// The one member of this name of all structures and unions; none where there are several.
fn member_of(page: &Page<'_, '_>, name: u32) -> Option<Declared> {
    let spelling = page.spelling(name);
    let mut found = None;
    for at in 0..page.tokens.len() {
        if page.spelling(at) == spelling
            && let Some(owner) = membership(page, at)
        {
            if found.is_some() {
                return None;
            }
            found = Some(Declared {
                name: at,
                first: first_of(page, at),
                owner: Some(owner),
            });
        }
    }
    found
}

fn is_member(page: &Page<'_, '_>, at: u32) -> bool {
    let before = at.saturating_sub(1);
    at > 0 && (is_mark(page, before, Mark::Dot) || is_mark(page, before, Mark::Arrow))
}

// What the name at this token means: a member behind `.` or `->`, else an object.
fn declaration(page: &Page<'_, '_>, at: u32) -> Option<Declared> {
    if !is_name(page, at) {
        return None;
    }
    if is_member(page, at) {
        return member_of(page, at);
    }
    let name = declaration_of(page.tokens, at)?;
    Some(Declared {
        name,
        first: first_of(page, name),
        owner: None,
    })
}

// The `const` that qualifies what is declared, and not what it points to.
fn qualifier_of(page: &Page<'_, '_>, declared: Declared) -> Option<u32> {
    for back in 1..=declared.name {
        let at = declared.name.saturating_sub(back);
        if at < declared.first || is_mark(page, at, Mark::Star) || is_mark(page, at, Mark::Comma) {
            return None;
        }
        if page.tokens.kind(at) == Some(TokenKind::Keyword(Word::Const)) {
            return Some(at);
        }
    }
    None
}

/// Which declaration makes the operand const whose last token this is.
pub fn constant_of(page: &Page<'_, '_>, last: u32) -> Option<Constant> {
    let assigned = declaration(page, last)?;
    let mut holder = assigned;
    let mut at = last;
    for _turn in 0..page.tokens.len() {
        if let Some(qualifier) = qualifier_of(page, holder) {
            return Some(Constant {
                declared: holder,
                qualifier,
                member: if at == last { None } else { Some(assigned) },
            });
        }
        if at < 2 || !is_mark(page, at.saturating_sub(1), Mark::Dot) {
            return None;
        }
        at = at.saturating_sub(2);
        holder = declaration(page, at)?;
    }
    None
}

// Adds the type of what is declared, as its declaration has it.
fn put_declared_type(
    out: &mut Bytes,
    page: &Page<'_, '_>,
    declared: Declared,
) -> Result<(), NoMemory> {
    let end = page.end(declared.name.saturating_sub(1));
    put_excerpt(out, page.between(page.start(declared.first), end))
}

/// Adds the type of the operand.
pub fn put_constant_type(
    out: &mut Bytes,
    page: &Page<'_, '_>,
    constant: Constant,
) -> Result<(), NoMemory> {
    match constant.member {
        Some(member) => {
            out.append(b"const ")?;
            put_declared_type(out, page, member)
        }
        None => put_declared_type(out, page, constant.declared),
    }
}

// Adds the structure or union that it is a member of.
fn put_owner(out: &mut Bytes, page: &Page<'_, '_>, owner: u32) -> Result<(), NoMemory> {
    out.append(b", member of ")?;
    out.append(page.spelling(owner))?;
    if is_name(page, owner.saturating_add(1)) {
        out.push(b' ')?;
        out.append(page.spelling(owner.saturating_add(1)))?;
    }
    Ok(())
}

/// Adds what is const, and where it is declared.
pub fn put_constant_object(
    out: &mut Bytes,
    page: &Page<'_, '_>,
    constant: Constant,
) -> Result<(), NoMemory> {
    let declared = constant.declared;
    out.append(page.spelling(declared.name))?;
    out.append(b": ")?;
    put_declared_type(out, page, declared)?;
    if let Some(owner) = declared.owner {
        put_owner(out, page, owner)?;
    }
    out.append(b", declared at ")?;
    page.put_token_place(out, declared.name)?;
    match constant.member {
        Some(member) => {
            out.append(b"; so its ")?;
            out.append(page.spelling(member.name))?;
            out.append(b" is const (6.5.2.3p3)")
        }
        None => Ok(()),
    }
}

/// Adds what mends it.
pub fn put_constant_hint(
    out: &mut Bytes,
    page: &Page<'_, '_>,
    constant: Constant,
) -> Result<(), NoMemory> {
    out.append(b"Take const away at ")?;
    page.put_token_place(out, constant.qualifier)?;
    out.append(b", or give ")?;
    out.append(page.spelling(constant.declared.name))?;
    out.append(b" its value where the object begins.")
}

// The operand from its first token up to the last, with the operator before a member, or a name.
fn operand(page: &Page<'_, '_>, first: u32, last: u32) -> Stretch {
    let end = page.end(last);
    let whole = token_stretch(page, first);
    if !is_name(page, last) {
        return Stretch {
            end,
            operator: end,
            operator_end: end,
            ..whole
        };
    }
    let operator = if is_member(page, last) {
        last.saturating_sub(1)
    } else {
        last
    };
    Stretch {
        end,
        operator: page.start(operator),
        operator_end: page.end(operator),
        ..whole
    }
}

/// The refusal of an assignment to an operand from this token up to that one, which isn't modifiable.
pub fn not_modifiable(page: &Page<'_, '_>, first: u32, last: u32) -> Refusal {
    let constant = constant_of(page, last);
    let sentence = if constant.is_some() {
        "is const and can't be assigned to"
    } else {
        "can't be assigned to: it is no modifiable lvalue"
    };
    Refusal {
        verdict: "not typed",
        paragraph: Some("6.5.16p2"),
        quotes: true,
        sentence,
        stretch: operand(page, first, last),
        does: "here",
        rule: Rule::Constraint("6.5.16p2"),
        hint: None,
        constant,
    }
}
