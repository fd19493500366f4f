// A certificate is kept.
ghost use Rattle.std.specs.Prelude.{◌≡◌, ◌≤◌, ◌<◌, ◌↔◌, OnOk, OnErr, IsErrOf, length};
ghost use Rattle.ub_base.specs.Causes.{Rose};
ghost use Rattle.ub_base.specs.Held.{IsKept, OthersStay, WhereTold};
ghost use Rattle.audit_sources.specs.Role.{most};

use crate::role::Role;
use std::alloc::Global;
use ub_base::{FileFault, Files, NoMemory};

/// Why a certificate isn't kept.
#[derive(Clone, Copy, PartialEq, Eq)]
pub enum KeepFault {
    TooLong,
    /// A write failed.
    Failed,
    NoMemory,
}

impl From<NoMemory> for KeepFault {
    ghost use Rattle.audit_sources.specs.declared.keep.KeepFault.TheVariants.{NoMemory};

    ghost from_gives = { λ _ e. e ≡ NoMemory };

    fn from(_e: NoMemory) -> KeepFault {
        KeepFault::NoMemory
    }
}

/// Keeps a certificate under a name, unless it is too long.
pub fn keep_certificate<F: Files>(
    alloc: Global,
    name: &str,
    bytes: &[u8],
    files: &mut F,
) -> Result<(), KeepFault>
    ensures kept { OnOk result (WhereTold (F.held files.old) (F.held files.new) (λ old new. IsKept old new name.now bytes.now)) }
    ensures within { OnOk result (length bytes.now ≤ most Role.Certificate) }
    ensures others { OnErr result (WhereTold (F.held files.old) (F.held files.new) (λ old new. OthersStay old new name.now)) }
    ensures too_long { IsErrOf result KeepFault.TooLong ↔ (most Role.Certificate < length bytes.now) }
    ensures stays { IsErrOf result KeepFault.TooLong → F.held files.new ≡ F.held files.old }
    ensures failed { IsErrOf result KeepFault.Failed → Rose (F.write_faults files.old) (F.write_faults files.new) }
    ensures later { F.write_faults files.old ≤ F.write_faults files.new }
    ensures reads { F.read_faults files.new ≡ F.read_faults files.old }
{
    if bytes.len() > Role::Certificate.most() {
        return Err(KeepFault::TooLong);
    }
    match files.keep(alloc, name, bytes) {
        Ok(()) => Ok(()),
        Err(FileFault::Failed) => Err(KeepFault::Failed),
        Err(FileFault::NoMemory) => Err(KeepFault::NoMemory),
    }
}
