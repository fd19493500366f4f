// Tokens with which no program goes on.

use crate::refused::{Refusal, Rule, macro_refusal, of_left_out, token_stretch};
use explain_page::{Page, Stretch};
use explain_words::header_of;
use parse_reason::{Missing, Reason};

// A refusal of what stands in this stretch.
fn refusal_at(
    paragraph: Option<&'static str>,
    sentence: &'static str,
    stretch: Stretch,
) -> Refusal {
    Refusal {
        verdict: "syntax",
        paragraph,
        quotes: true,
        sentence,
        stretch,
        does: "here",
        rule: Rule::Unsaid,
        hint: None,
        constant: None,
    }
}

fn missing_sentence(missing: Missing) -> &'static str {
    match missing {
        Missing::Semicolon => "can't stand here; with `;` before it the text goes on",
        Missing::Comma => "can't stand here; with `,` before it the text goes on",
        Missing::CloseParen => "can't stand here; with `)` before it the text goes on",
        Missing::CloseBracket => "can't stand here; with `]` before it the text goes on",
        Missing::CloseBrace => "can't stand here; with `}` before it the text goes on",
    }
}

fn missing_paragraph(missing: Missing) -> Option<&'static str> {
    match missing {
        Missing::Semicolon => Some("6.8.3p1"),
        _ => None,
    }
}

// The end, which comes too soon.
fn ended(sentence: &'static str, stretch: Stretch) -> Refusal {
    Refusal {
        quotes: false,
        ..refusal_at(None, sentence, stretch)
    }
}

// A token before which another one is missing.
fn lacking(page: &Page<'_, '_>, token: u32, missing: Missing) -> Refusal {
    let stretch = token_stretch(page, token);
    if token >= page.tokens.len() {
        return ended(
            "the text ends too soon; with `;` behind it it goes on",
            stretch,
        );
    }
    refusal_at(
        missing_paragraph(missing),
        missing_sentence(missing),
        stretch,
    )
}

// A name that isn't known as a type.
fn no_type(page: &Page<'_, '_>, name: u32) -> Refusal {
    Refusal {
        hint: header_of(page.spelling(name)),
        ..refusal_at(
            Some("6.7.2p1"),
            "is no name of a type: nothing declares it as one",
            token_stretch(page, name),
        )
    }
}

// A declaration without a type.
fn untyped(page: &Page<'_, '_>, name: u32) -> Refusal {
    Refusal {
        hint: Some("C11 puts no int where a type is left out: write it."),
        ..refusal_at(
            Some("6.7.2p2"),
            "can't begin a declaration: a type stands before it",
            token_stretch(page, name),
        )
    }
}

const NO_INITIALIZER: &str = "can't stand here: an initializer list has an initializer at least";

const NO_MEMBER: &str = "can't stand here: a structure or union has a member at least";

const NO_ENUMERATOR: &str = "can't stand here: an enumeration has a constant at least";

/// What is said of a token with which no program goes on.
pub fn unspelled(page: &Page<'_, '_>, token: u32, reason: Reason) -> Refusal {
    let stretch = token_stretch(page, token);
    match reason {
        Reason::LeftOut(part, at) => of_left_out(part, token_stretch(page, at), "here"),
        Reason::Unexpanded(name) => macro_refusal(page, "syntax", name),
        Reason::Missing(found) => lacking(page, token, found),
        Reason::NoType(name) => no_type(page, name),
        Reason::Untyped(name) => untyped(page, name),
        Reason::EmptyInitializer => refusal_at(Some("6.7.9p1"), NO_INITIALIZER, stretch),
        Reason::EmptyMembers => refusal_at(Some("6.7.2.1p1"), NO_MEMBER, stretch),
        Reason::EmptyEnumerators => refusal_at(Some("6.7.2.2p1"), NO_ENUMERATOR, stretch),
        Reason::ElseAlone => refusal_at(
            Some("6.8.4p1"),
            "can't stand here: no if waits for it",
            stretch,
        ),
        Reason::Unclosed(open) => refusal_at(
            None,
            "is never closed: the text ends before",
            token_stretch(page, open),
        ),
        Reason::Ended => ended("the text ends too soon", stretch),
        Reason::Unexpected => refusal_at(None, "can't stand here", stretch),
    }
}
