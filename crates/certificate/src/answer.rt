// Answers of a check of a certificate.

/// What is asked of a certificate, in this order (own).
#[derive(Clone, Copy, PartialEq, Eq)]
pub enum Part {
    /// The rows are those of an address map.
    Map,
    /// Each pick is permitted, each object has its row, and only the last pick raises or ends the run.
    Order,
    /// What the certificate says of its order is so.
    Claim,
}

/// Whether a certificate holds, and the first part that doesn't.
#[derive(Clone, Copy, PartialEq, Eq)]
pub enum Answer {
    Yes,
    No(Part),
}
