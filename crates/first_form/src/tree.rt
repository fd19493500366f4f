// A unit of the first form.

/// An operator between two constants (6.5.5, 6.5.6).
#[derive(Clone, Copy, PartialEq, Eq)]
pub enum Operator {
    Add,
    Sub,
    Mul,
    Div,
    Rem,
}

/// `int main(void) { return E; }`: the line of E's first constant, that constant, and the operator and the constant that
/// may follow it. A constant is at most 2147483647.
#[derive(Clone, Copy, PartialEq, Eq)]
pub struct ReturnUnit {
    pub line: u32,
    pub left: u32,
    pub rest: Option<(Operator, u32)>,
}
