//! Where declarators and specifiers stand.

/// Where a declarator stands: in a declaration it has a name, in a type name it has none, and in a parameter it may have
/// one (6.7.6, 6.7.7).
#[derive(Clone, Copy, PartialEq, Eq)]
pub enum Mode {
    Named,
    Abstract,
    Either,
}

/// Which keywords may stand among specifiers: those of a declaration, or only type specifiers and qualifiers (6.7.2.1).
#[derive(Clone, Copy, PartialEq, Eq)]
pub enum Place {
    Declaration,
    Qualified,
}
