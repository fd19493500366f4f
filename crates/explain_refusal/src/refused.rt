// Texts that aren't run.
ghost use Rattle.std.specs.Prelude.{◌≤◌, ◌^◌, length};

use crate::constant::{Constant, put_constant_hint, put_constant_object, put_constant_type};
use crate::reason::Refused;
use crate::syntax::unspelled;
use crate::typing::not_typed;
use explain_page::{Mark, Page, Stretch, empty, put_excerpt, put_long_note, put_marks};
use explain_places::{definition_before, line_number};
use parse_reason::{Part, kind_of, part_of_number};
use std::alloc::Global;
use ub_base::{Bytes, NoMemory};

/// A refusal of a stretch of the text: its verdict, behind that the paragraph that is broken or the name of what is left out,
/// and what is said, behind the text of the stretch where `quotes` is true.
#[derive(Clone, Copy)]
pub struct Refusal {
    pub verdict: &'static str,
    pub paragraph: Option<&'static str>,
    pub quotes: bool,
    pub sentence: &'static str,
    pub stretch: Stretch,
    /// What the mark says.
    pub does: &'static str,
    pub rule: Rule,
    pub hint: Option<&'static str>,
    /// What is const of an operand that is assigned to.
    pub constant: Option<Constant>,
}

/// The rule of a refusal.
#[derive(Clone, Copy, PartialEq, Eq)]
pub enum Rule {
    Unsaid,
    /// It belongs to this part of C, or to what compilers add, which the profile leaves out.
    LeftOut(Part),
    /// A macro isn't expanded. Its definition stands at this offset, on this line.
    Macro { at: usize, line: u32 },
    /// A constraint.
    Constraint(&'static str),
    /// A paragraph that is no constraint.
    Broken(&'static str),
}

/// A note of a refusal.
#[derive(Drop)]
pub struct Saying {
    pub name: &'static str,
    pub text: Bytes,
}

const WITHOUT: &str = "Audit the rest without it, or count in integers.";

const WITHOUT_IT: &str = "Audit the rest without it.";

const UNSET: &str =
    "With `-std=c11 -U__GNUC__` before the file, the preprocessor leaves out most of them.";

fn hint_of(part: Part) -> &'static str {
    match part {
        Part::FloatingType | Part::FloatingConstant => WITHOUT,
        Part::Word => UNSET,
        _ => WITHOUT_IT,
    }
}

/// A refusal of what is left out of the profile.
pub fn of_left_out(part: Part, stretch: Stretch, does: &'static str) -> Refusal {
    Refusal {
        verdict: "outside the profile",
        paragraph: Some(part.name()),
        quotes: true,
        sentence: part.sentence(),
        stretch,
        does,
        rule: Rule::LeftOut(part),
        hint: Some(hint_of(part)),
        constant: None,
    }
}

/// A refusal of a name that stands for a macro, which isn't expanded.
pub fn macro_refusal(page: &Page<'_, '_>, verdict: &'static str, name: u32) -> Refusal {
    let stretch = token_stretch(page, name);
    let rule = match definition_before(page.text, page.spelling(name), stretch.start) {
        Some(at) => Rule::Macro {
            at,
            line: line_number(page.text, at),
        },
        None => Rule::Unsaid,
    };
    Refusal {
        verdict,
        paragraph: Some("6.10.3p9"),
        quotes: true,
        sentence: "is a macro, and the text isn't preprocessed",
        stretch,
        does: "here",
        rule,
        hint: Some(PREPROCESS),
        constant: None,
    }
}

fn put_left_out(out: &mut Bytes, part: Part) -> Result<(), NoMemory> {
    if part.is_extension() {
        out.append(b"C11 hasn't it, and lets compilers add to it (")?;
    } else {
        out.append(b"C has it (")?;
    }
    out.append(part.paragraph().as_bytes())?;
    out.append(b"); this tool reads no ")?;
    out.append(part.name().as_bytes())?;
    out.append(b" (PROFILE.md, Left out). Nothing was run.")
}

fn put_rule(out: &mut Bytes, page: &Page<'_, '_>, rule: Rule) -> Result<(), NoMemory> {
    match rule {
        Rule::Unsaid => Ok(()),
        Rule::LeftOut(part) => put_left_out(out, part),
        Rule::Macro { at, line } => {
            out.append(b"#define at ")?;
            page.put_place(out, at, line)?;
            out.append(
                b" defines it; its text takes its place before a program is read. Nothing was run.",
            )
        }
        Rule::Broken(paragraph) => {
            out.append(paragraph.as_bytes())?;
            out.append(b" is broken. Nothing was run.")
        }
        Rule::Constraint(paragraph) => {
            out.append(paragraph.as_bytes())?;
            out.append(b", a constraint: every compiler has to say so. Nothing was run.")
        }
    }
}

// Adds what only the tokens of a const operand tell.
fn add_constant(
    alloc: Global,
    notes: &mut Vec<Saying>,
    page: &Page<'_, '_>,
    constant: Constant,
) -> Result<(), NoMemory> {
    let mut object = empty(alloc);
    put_constant_object(&mut object, page, constant)?;
    notes.push(Saying {
        name: "object",
        text: object,
    })?;
    let rule = Bytes::from_slice(alloc, ASSIGNED)?;
    notes.push(Saying {
        name: "rule",
        text: rule,
    })?;
    let mut hint = empty(alloc);
    put_constant_hint(&mut hint, page, constant)?;
    notes.push(Saying {
        name: "hint",
        text: hint,
    })?;
    Ok(())
}

const ASSIGNED: &[u8] =
    b"6.5.16p2, a constraint: only a modifiable lvalue is assigned to. Every compiler has to say so. Nothing was run.";

/// The notes of a refusal.
pub fn refusal_notes(
    alloc: Global,
    page: &Page<'_, '_>,
    refusal: &Refusal,
) -> Result<Vec<Saying>, NoMemory> {
    let mut notes = Vec::new(alloc);
    if let Some(constant) = refusal.constant {
        add_constant(alloc, &mut notes, page, constant)?;
        return Ok(notes);
    }
    if refusal.rule != Rule::Unsaid {
        let mut text = empty(alloc);
        put_rule(&mut text, page, refusal.rule)?;
        notes.push(Saying { name: "rule", text })?;
    }
    if let Some(hint) = refusal.hint {
        notes.push(Saying {
            name: "hint",
            text: Bytes::from_slice(alloc, hint.as_bytes())?,
        })?;
    }
    Ok(notes)
}

/// Adds what is said of a refusal behind its verdict.
pub fn put_said(out: &mut Bytes, page: &Page<'_, '_>, refusal: &Refusal) -> Result<(), NoMemory> {
    if refusal.quotes {
        let stretch = &refusal.stretch;
        put_excerpt(out, page.between(stretch.start, stretch.end))?;
        out.push(b' ')?;
    }
    out.append(refusal.sentence.as_bytes())
}

fn put_paragraph(out: &mut Bytes, refusal: &Refusal) -> Result<(), NoMemory> {
    match refusal.paragraph {
        Some(paragraph) => {
            out.append(b" (")?;
            out.append(paragraph.as_bytes())?;
            out.push(b')')
        }
        None => Ok(()),
    }
}

fn put_line(out: &mut Bytes, page: &Page<'_, '_>, refusal: &Refusal) -> Result<(), NoMemory> {
    page.put_place(out, refusal.stretch.start, refusal.stretch.line)?;
    out.append(b": ")?;
    out.append(refusal.verdict.as_bytes())?;
    put_paragraph(out, refusal)?;
    out.append(b": ")?;
    put_said(out, page, refusal)?;
    out.push(b'\n')
}

/// What the mark of a refusal says.
pub fn does_of(alloc: Global, page: &Page<'_, '_>, refusal: &Refusal) -> Result<Bytes, NoMemory> {
    let Some(constant) = refusal.constant else {
        return Bytes::from_slice(alloc, refusal.does.as_bytes());
    };
    let mut does = empty(alloc);
    put_constant_type(&mut does, page, constant)?;
    Ok(does)
}

fn put_carets(
    alloc: Global,
    out: &mut Bytes,
    page: &Page<'_, '_>,
    refusal: &Refusal,
) -> Result<(), NoMemory> {
    let does = does_of(alloc, page, refusal)?;
    let mark = Mark {
        stretch: refusal.stretch,
        number: 1,
        does: does.as_slice(),
    };
    put_marks(out, page, &mark, None)
}

/// Adds the explanation of a refusal in words: the first line, the line of source, the notes.
pub fn put_refusal(
    alloc: Global,
    out: &mut Bytes,
    page: &Page<'_, '_>,
    refusal: &Refusal,
) -> Result<(), NoMemory> {
    put_line(out, page, refusal)?;
    put_carets(alloc, out, page, refusal)?;
    let notes = refusal_notes(alloc, page, refusal)?;
    for note in notes.iter() {
        put_long_note(out, note.name.as_bytes(), note.text.as_slice())?;
    }
    Ok(())
}

/// What is said of tokens that aren't a program; none where the text as a whole is too deep.
pub fn refusal_of(page: &Page<'_, '_>, refused: Refused) -> Option<Refusal> {
    match refused {
        Refused::Syntax(token, reason) => Some(unspelled(page, token, reason)),
        Refused::NotTyped(token, reason) => Some(not_typed(page, token, reason)),
        _ => None,
    }
}

/// The stretch of a token; behind the last one, of that.
pub fn token_stretch(page: &Page<'_, '_>, token: u32) -> Stretch {
    let at = token.min(page.tokens.len().saturating_sub(1));
    let start = page.start(at);
    let end = page.end(at).max(start.saturating_add(1));
    Stretch {
        start,
        end,
        operator: start,
        operator_end: end,
        line: page.line(at),
    }
}

fn is_word_byte(byte: u8) -> bool {
    byte.is_ascii_alphanumeric() || byte == b'_' || byte == b'.'
}

// Where the word or number at this offset ends; one byte at least belongs to it.
fn word_end(text: &[u8], at: usize) -> usize {
    let from = at.min(text.len());
    let (_, behind) = text.split_at(from);
    for (i, byte) in behind.iter().enumerate() {
        if i > 0 && !is_word_byte(*byte) {
            return from.saturating_add(i);
        }
    }
    text.len()
}

// The byte at this offset; a blank behind the end.
fn byte_at(text: &[u8], at: usize) -> u8 {
    match text.get(at) {
        Some(byte) => *byte,
        None => b' ',
    }
}

// A refusal of a piece of the text.
fn piece(stretch: Stretch, sentence: &'static str, hint: Option<&'static str>) -> Refusal {
    Refusal {
        verdict: "lex",
        paragraph: None,
        quotes: true,
        sentence,
        stretch,
        does: "here",
        rule: Rule::Unsaid,
        hint,
        constant: None,
    }
}

const PREPROCESS: &str = "`cc -E -nostdinc -I headers FILE | cub explain -`";

// A byte that begins no token.
fn stray(text: &[u8], stretch: Stretch) -> Refusal {
    let quote = byte_at(text, stretch.end);
    if byte_at(text, stretch.start) == b'#' {
        return piece(
            stretch,
            "stands in the text, which isn't preprocessed",
            Some(PREPROCESS),
        );
    }
    if quote == b'"' || quote == b'\'' {
        return of_left_out(Part::WideLiteral, stretch, "here");
    }
    if byte_at(text, stretch.start) == b'\\' {
        return of_left_out(Part::UniversalName, stretch, "here");
    }
    piece(stretch, "begins no token of C", None)
}

// A number that is no integer constant.
fn bad_number(page: &Page<'_, '_>, stretch: Stretch) -> Refusal {
    let word = page.between(stretch.start, stretch.end);
    match part_of_number(word) {
        Some(part) => of_left_out(part, stretch, kind_of(word)),
        None => piece(stretch, "is no integer constant", None),
    }
}

/// What is said of a text that has no tokens; none where the reason is another one.
pub fn unlexed(page: &Page<'_, '_>, refused: Refused) -> Option<Refusal> {
    let at = match refused {
        Refused::Stray(at) | Refused::OpenLiteral(at) | Refused::BadNumber(at) => at as usize,
        _ => return None,
    };
    let end = word_end(page.text, at);
    let stretch = Stretch {
        start: at,
        end,
        operator: at,
        operator_end: end,
        line: line_number(page.text, at),
    };
    Some(match refused {
        Refused::Stray(_) => stray(page.text, stretch),
        Refused::BadNumber(_) => bad_number(page, stretch),
        _ => piece(stretch, "begins what is never closed", None),
    })
}
