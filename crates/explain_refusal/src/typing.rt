// Programs that break a constraint, or leave the profile.

use crate::constant::not_modifiable;
use crate::refused::{Refusal, Rule, macro_refusal, of_left_out, token_stretch};
use c_lex::{Mark, TokenKind};
use explain_page::{Page, Stretch};
use explain_places::{definition_before, open_before};
use explain_words::header_of;
use parse_reason::{Part, part_of_word};
use type_reasons::Reason;

fn is_mark(page: &Page<'_, '_>, at: u32, mark: Mark) -> bool {
    page.tokens.kind(at) == Some(TokenKind::Punct(mark))
}

// The first token from this one up to the end of its declaration that is left out.
fn left_out_behind(page: &Page<'_, '_>, token: u32) -> Option<(Part, u32)> {
    for at in token..page.tokens.len() {
        if is_mark(page, at, Mark::Semicolon) || is_mark(page, at, Mark::OpenBrace) {
            return None;
        }
        if let Some(part) = part_of_word(page.spelling(at)) {
            return Some((part, at));
        }
    }
    None
}

// What is left out, by its reason alone, which says it in a sentence.
fn left_out_by(reason: Reason) -> Option<Part> {
    match reason {
        Reason::ArrayOfValue => Some(Part::ArrayOfValue),
        Reason::FunctionConversion => Some(Part::FunctionConversion),
        Reason::PartGivenTwice => Some(Part::PartTwice),
        Reason::LeftOutAddress => Some(Part::StaticAddress),
        Reason::TypeTooLarge | Reason::TypeTooHigh | Reason::ListTooLong | Reason::Unlawful => {
            Some(Part::LargeText)
        }
        _ => None,
    }
}

// What is left out, by its reason and the token at which it was met.
fn left_out_at(page: &Page<'_, '_>, token: u32, reason: Reason) -> Option<Part> {
    match reason {
        Reason::LeftOutVariadic => Some(Part::VariadicDefinition),
        Reason::LeftOutVariableLength if !is_outside(page, token) => Some(Part::VariableLength),
        Reason::MemberType if is_flexible(page, token) => Some(Part::FlexibleMember),
        Reason::CharacterConstant => character_left_out(page.spelling(token)),
        Reason::UndeclaredName => part_of_word(page.spelling(token)),
        _ => None,
    }
}

// Whether the token stands in no braces and no parentheses: outside of each function and of each list of parameters.
fn is_outside(page: &Page<'_, '_>, token: u32) -> bool {
    let mut depth = 0u32;
    for at in 0..token {
        if is_mark(page, at, Mark::OpenBrace) || is_mark(page, at, Mark::OpenParen) {
            depth = depth.saturating_add(1);
        } else if is_mark(page, at, Mark::CloseBrace) || is_mark(page, at, Mark::CloseParen) {
            depth = depth.saturating_sub(1);
        }
    }
    depth == 0
}

// Whether an array without a length stands there, as the last of several members.
fn is_flexible(page: &Page<'_, '_>, token: u32) -> bool {
    let Some(open) = open_before(page.tokens, token) else {
        return false;
    };
    is_mark(page, token.saturating_add(1), Mark::OpenBracket)
        && is_mark(page, token.saturating_add(2), Mark::CloseBracket)
        && is_mark(page, token.saturating_add(3), Mark::Semicolon)
        && is_mark(page, token.saturating_add(4), Mark::CloseBrace)
        && has_semicolon(page, open, token)
}

fn has_semicolon(page: &Page<'_, '_>, from: u32, to: u32) -> bool {
    for at in from..to {
        if is_mark(page, at, Mark::Semicolon) {
            return true;
        }
    }
    false
}

// What a character constant belongs to: the constant without its quotes has several characters, or a universal character name.
fn character_left_out(constant: &[u8]) -> Option<Part> {
    let is_escape = constant.iter().any(|byte| *byte == b'\\');
    let is_universal = constant.starts_with(b"'\\u") || constant.starts_with(b"'\\U");
    if is_universal {
        Some(Part::UniversalName)
    } else if !is_escape && constant.len() > 3 {
        Some(Part::SeveralCharacters)
    } else {
        None
    }
}

fn is_left_out(reason: Reason) -> bool {
    matches!(
        reason,
        Reason::LeftOutFloating | Reason::LeftOutQualifier | Reason::LeftOutSpecifier
    )
}

fn is_assigning(kind: Option<TokenKind>) -> bool {
    matches!(
        kind,
        Some(TokenKind::Punct(
            Mark::Equal
                | Mark::StarEqual
                | Mark::SlashEqual
                | Mark::PercentEqual
                | Mark::PlusEqual
                | Mark::MinusEqual
                | Mark::ShiftLeftEqual
                | Mark::ShiftRightEqual
                | Mark::AmpersandEqual
                | Mark::CaretEqual
                | Mark::BarEqual
        ))
    )
}

// The last token before the assignment of this statement, from this one on.
fn assigned(page: &Page<'_, '_>, token: u32) -> Option<u32> {
    for at in token..page.tokens.len() {
        if is_mark(page, at, Mark::Semicolon) {
            return None;
        }
        if is_assigning(page.tokens.kind(at)) && at > token {
            return Some(at.saturating_sub(1));
        }
    }
    None
}

// Whether the paragraph is no constraint, so that a compiler needn't say that it is broken.
fn is_semantic(reason: Reason) -> bool {
    matches!(
        reason,
        Reason::VoidValue
            | Reason::IncompleteValue
            | Reason::CharacterConstant
            | Reason::StringLiteral
            | Reason::IncompatibleScopes
            | Reason::LinkageClash
            | Reason::IncompleteObject
            | Reason::LocalFunctionStorage
            | Reason::UnnamedMemberTwice
            | Reason::NextEnumerator
            | Reason::QualifiedFunction
            | Reason::VoidParameter
    ) || is_semantic_behind(reason)
}

fn is_semantic_behind(reason: Reason) -> bool {
    matches!(
        reason,
        Reason::TypeName
            | Reason::ScalarInitializer
            | Reason::WholeInitializer
            | Reason::TextInitializer
            | Reason::ListInitializer
            | Reason::EmptyList
            | Reason::AssertionConstant
            | Reason::ExternalDefinition
            | Reason::IncompleteAtEnd
            | Reason::IncompleteTentative
            | Reason::MainType
            | Reason::LibraryName
    )
}

fn rule_of(reason: Reason, paragraph: &'static str) -> Rule {
    if paragraph == "own" {
        Rule::Unsaid
    } else if is_semantic(reason) {
        Rule::Broken(paragraph)
    } else {
        Rule::Constraint(paragraph)
    }
}

fn constraint(reason: Reason, quotes: bool, sentence: &'static str, stretch: Stretch) -> Refusal {
    let paragraph = reason.paragraph();
    Refusal {
        verdict: "not typed",
        paragraph: Some(paragraph),
        quotes,
        sentence,
        stretch,
        does: "here",
        rule: rule_of(reason, paragraph),
        hint: None,
        constant: None,
    }
}

fn undeclared(page: &Page<'_, '_>, token: u32) -> Refusal {
    let stretch = token_stretch(page, token);
    if page.tokens.kind(token) != Some(TokenKind::Name) {
        return constraint(
            Reason::UndeclaredName,
            false,
            Reason::UndeclaredName.sentence(),
            stretch,
        );
    }
    Refusal {
        hint: header_of(page.spelling(token)),
        ..constraint(Reason::UndeclaredName, true, "isn't declared", stretch)
    }
}

const NO_MAIN: &str = "the text ends without a function main; did the preprocessor stop early?";

const FILE_SCOPE: &str =
    "the length of an array outside of all functions is no integer constant expression";

fn said(page: &Page<'_, '_>, token: u32, reason: Reason) -> Refusal {
    let stretch = token_stretch(page, token);
    match reason {
        Reason::UndeclaredName => undeclared(page, token),
        Reason::LeftOutVariableLength => Refusal {
            paragraph: Some("6.7.6.2p2"),
            rule: Rule::Constraint("6.7.6.2p2"),
            ..constraint(reason, false, FILE_SCOPE, stretch)
        },
        Reason::MainType if token.saturating_add(1) >= page.tokens.len() => {
            constraint(reason, false, NO_MAIN, stretch)
        }
        Reason::NotModifiable => match assigned(page, token) {
            Some(last) => not_modifiable(page, token, last),
            None => constraint(reason, false, reason.sentence(), stretch),
        },
        _ => constraint(reason, false, reason.sentence(), stretch),
    }
}

// Whether a name that isn't declared stands for a macro.
fn is_macro(page: &Page<'_, '_>, token: u32, reason: Reason) -> bool {
    let name = page.spelling(token);
    reason == Reason::UndeclaredName
        && definition_before(page.text, name, page.start(token)).is_some()
}

// A refusal that a left out part of C explains.
fn not_typed_by_part(page: &Page<'_, '_>, token: u32, reason: Reason) -> Option<Refusal> {
    let stretch = token_stretch(page, token);
    if let Some(part) = left_out_at(page, token, reason) {
        return Some(of_left_out(part, stretch, "here"));
    }
    if let Some(part) = left_out_by(reason) {
        return Some(Refusal {
            quotes: false,
            sentence: reason.sentence(),
            ..of_left_out(part, stretch, "here")
        });
    }
    if is_left_out(reason)
        && let Some((part, at)) = left_out_behind(page, token)
    {
        return Some(of_left_out(part, token_stretch(page, at), "here"));
    }
    None
}

/// What is said of a program that isn't typed at this token.
pub fn not_typed(page: &Page<'_, '_>, token: u32, reason: Reason) -> Refusal {
    if is_macro(page, token, reason) {
        return macro_refusal(page, "not typed", token);
    }
    match not_typed_by_part(page, token, reason) {
        Some(refusal) => refusal,
        None => said(page, token, reason),
    }
}
