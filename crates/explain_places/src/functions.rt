// Functions among tokens.

use crate::brackets::is_mark;
use c_lex::{Mark, TokenKind, Tokens};

// What was read of the external declarations: how many braces are open, the name that may be that of a function, and the
// function whose body is open.
#[derive(Clone, Copy)]
struct Scan {
    depth: u32,
    name: Option<u32>,
    body: Option<u32>,
}

impl Scan {
    fn opened(self) -> Scan {
        if self.depth == 0 {
            return Scan {
                depth: 1,
                name: self.name,
                body: self.name,
            };
        }
        Scan {
            depth: self.depth.saturating_add(1),
            ..self
        }
    }

    fn closed(self) -> Scan {
        if self.depth <= 1 {
            return Scan {
                depth: 0,
                name: None,
                body: None,
            };
        }
        Scan {
            depth: self.depth.saturating_sub(1),
            ..self
        }
    }

    fn ended(self) -> Scan {
        if self.depth == 0 {
            Scan { name: None, ..self }
        } else {
            self
        }
    }

    // A name with a parenthesis behind it.
    fn called(self, at: u32) -> Scan {
        if self.depth == 0 && self.name.is_none() {
            Scan {
                name: Some(at),
                ..self
            }
        } else {
            self
        }
    }
}

fn scanned(tokens: &Tokens<'_>, scan: Scan, at: u32) -> Scan {
    match tokens.kind(at) {
        Some(TokenKind::Punct(Mark::OpenBrace)) => scan.opened(),
        Some(TokenKind::Punct(Mark::CloseBrace)) => scan.closed(),
        Some(TokenKind::Punct(Mark::Semicolon)) => scan.ended(),
        Some(TokenKind::Name) => {
            if is_mark(tokens, at.saturating_add(1), Mark::OpenParen) {
                scan.called(at)
            } else {
                scan
            }
        }
        _ => scan,
    }
}

/// The name of the function in whose body this token stands, by its token.
pub fn function_of(tokens: &Tokens<'_>, at: u32) -> Option<u32> {
    let mut scan = Scan {
        depth: 0,
        name: None,
        body: None,
    };
    for i in 0..at.min(tokens.len()) {
        scan = scanned(tokens, scan, i);
    }
    scan.body
}
