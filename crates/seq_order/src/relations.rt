// How two events of a full expression stand to one another.

/// How two events stand to one another (5.1.2.3p3).
#[derive(Clone, Copy, Debug, PartialEq, Eq)]
pub enum Relation {
    /// One is sequenced before the other.
    Sequenced,
    Unsequenced,
    /// In one order or the other, and not interleaved: one of them is the body of a call (6.5.2.2p10).
    Indeterminate,
}
