// What a file is for.
ghost use Rattle.std.specs.Prelude.{◌≡◌};
ghost use Rattle.audit_sources.specs.Role.{most};

/// What a file is for, which says how long it may be.
#[derive(Clone, Copy, PartialEq, Eq)]
pub enum Role {
    Source,
    Certificate,
    Input,
}

impl Role {
    /// The most bytes of such a file.
    pub fn most(self) -> usize
        ensures { result ≡ most self }
    {
        match self {
            Role::Source => 1 << 20,
            Role::Certificate => 1 << 26,
            Role::Input => 1 << 24,
        }
    }
}
