// Why a text isn't read.
ghost use Rattle.std.specs.Prelude.{◌≡◌};

use std::alloc::AllocFailed;

/// Why a text isn't read: it isn't of the first form, or memory ran out.
#[derive(Clone, Copy, PartialEq, Eq)]
pub enum FormFault {
    NotFirstForm,
    NoMemory,
}

impl<T: Drop> From<AllocFailed<T>> for FormFault {
    ghost use Rattle.first_form.specs.declared.fault.FormFault.TheVariants.{NoMemory};

    ghost from_gives = { λ _ e. e ≡ NoMemory };

    fn from(_e: AllocFailed<T>) -> FormFault {
        FormFault::NoMemory
    }
}
