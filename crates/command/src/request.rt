// What the words ask for.
ghost use Rattle.std.specs.Prelude.{◌≡◌};

use std::alloc::AllocError;

/// `audit FILE [--input F] [--steps N] [--tight] [--cert F] [ARGS]`.
#[derive(Drop)]
pub struct AuditRequest<'a> {
    pub file: &'a str,
    pub input: Option<&'a str>,
    /// The most steps, from 1 to 100,000,000.
    pub steps: u64,
    pub is_tight: bool,
    pub cert: Option<&'a str>,
    /// The program's own arguments, without its name.
    pub args: Vec<String>,
}

/// `check FILE CERT [--input F] [ARGS]`.
#[derive(Drop)]
pub struct CheckRequest<'a> {
    pub file: &'a str,
    pub cert: &'a str,
    pub input: Option<&'a str>,
    pub args: Vec<String>,
}

/// `self SEED N`.
#[derive(Clone, Copy)]
pub struct SelfRequest {
    /// At most 65,536.
    pub seed: u64,
    /// At most 20,000.
    pub lines: u64,
}

/// What the words ask for.
#[derive(Drop)]
pub enum Request<'a> {
    Audit(AuditRequest<'a>),
    Check(CheckRequest<'a>),
    SelfAudit(SelfRequest),
}

/// Why the words ask for nothing: the command doesn't take them, or memory ran out.
#[derive(Clone, Copy, PartialEq, Eq)]
pub enum WordFault {
    Usage,
    NoMemory,
}

impl From<AllocError> for WordFault {
    ghost use Rattle.command.specs.declared.request.WordFault.TheVariants.{NoMemory};

    ghost from_gives = { λ _ e. e ≡ NoMemory };

    fn from(_e: AllocError) -> WordFault {
        WordFault::NoMemory
    }
}
