// Lines of faults.

use type_reasons::Reason;
use type_scope::TypeFault;

/// A rule that is broken, and the line on which it is.
#[derive(Clone, Copy)]
pub struct Broken {
    pub line: u32,
    pub reason: Reason,
}

impl From<Broken> for TypeFault {
    fn from(e: Broken) -> TypeFault {
        TypeFault::NotTyped {
            line: e.line,
            reason: e.reason,
        }
    }
}

/// The one on the earlier line; the first of two on one line.
pub fn earlier(broken: Option<Broken>, other: Option<Broken>) -> Option<Broken> {
    match (broken, other) {
        (Some(a), Some(b)) => Some(if b.line < a.line { b } else { a }),
        (Some(a), None) => Some(a),
        (None, other) => other,
    }
}

/// What is used on this line, if on one, and not defined: with internal linkage, or with external (6.9p3, 6.9p5).
pub fn undefined(used: Option<u32>, internal: bool) -> Option<Broken> {
    let line = used?;
    let reason = if internal {
        Reason::InternalDefinition
    } else {
        Reason::ExternalDefinition
    };
    Some(Broken { line, reason })
}
