// Further looks at programs and their runs.
ghost use Rattle.std.specs.Prelude.{◌≡◌};
ghost use Rattle.audit_batch.specs.Moment.{moment};
ghost use Rattle.person_top.specs.Ends.{EndsByBoth, EndsOnBoth, device};
ghost use Rattle.person_top.specs.Person.{IsBoundedLook};

use crate::put::{WRITE_FAULT, put_no_memory, put_text};
use person_command::Exploration;
use std::alloc::Global;
use ub_base::{Bytes, Failed, Files, NoMemory, Sink, put_all};

/// What is put on standard output and on standard error, and the status.
#[derive(Drop)]
pub struct Sheet {
    pub status: u8,
    pub text: Bytes,
    pub errors: Bytes,
}

/// Looks further at programs and their runs.
pub trait Explorer {
    ghost use Rattle.std.specs.Prelude.{◌≡◌, ℕ, List, IfOk};
    ghost use Rattle.audit_batch.specs.Moment.{Moment, moment};
    ghost use Rattle.person_command.specs.declared.person_request.Exploration.{Exploration};
    ghost use Rattle.person_top.specs.Person.{IsBoundedLook};

    /// Whether this look may have this status, this text and these bytes for standard error, while the files went from one moment to the
    /// next.
    ghost explores: { Self → Moment → Moment → Exploration → ℕ → List ℕ → List ℕ → Type 0 };

    fn explore<F: Files>(
        &self,
        alloc: Global,
        files: &mut F,
        look: &Exploration<'_>,
    ) -> Result<Sheet, NoMemory>
        requires bounded { IsBoundedLook look.now }
        ensures sheet { IfOk result (λ sheet. explores self.now
            (moment (F.held files.old) (F.read_faults files.old) (F.write_faults files.old))
            (moment (F.held files.new) (F.read_faults files.new) (F.write_faults files.new))
            look.now sheet.status sheet.text sheet.errors) }
        ensures held { F.held files.new ≡ F.held files.old };
}

// Puts a text, and then the bytes on standard error.
fn put_both<O: Sink, E: Sink>(sheet: &Sheet, out: &mut O, errors: &mut E) -> u8
    ensures { EndsByBoth (device (O.told out.old) (O.faults out.old)) (device (O.told out.new) (O.faults out.new))
        (device (E.told errors.old) (E.faults errors.old))
        (device (E.told errors.new) (E.faults errors.new)) result sheet.now.status sheet.now.text sheet.now.errors }
{
    match put_all(out, sheet.text.as_slice()) {
        Ok(()) => put_text(errors, sheet.errors.as_slice(), sheet.status),
        Err(Failed) => WRITE_FAULT,
    }
}

/// Looks further at a program or its run, and puts what is found.
pub fn explore<A: Explorer, F: Files, O: Sink, E: Sink>(
    alloc: Global,
    look: &Exploration<'_>,
    explorer: &A,
    files: &mut F,
    out: &mut O,
    errors: &mut E,
) -> u8
    requires { IsBoundedLook look.now }
    ensures ends { EndsOnBoth (A.explores explorer.now
        (moment (F.held files.old) (F.read_faults files.old) (F.write_faults files.old))
        (moment (F.held files.new) (F.read_faults files.new) (F.write_faults files.new)) look.now)
        (device (O.told out.old) (O.faults out.old)) (device (O.told out.new) (O.faults out.new))
        (device (E.told errors.old) (E.faults errors.old)) (device (E.told errors.new) (E.faults errors.new)) result }
    ensures held { F.held files.new ≡ F.held files.old }
{
    match explorer.explore(alloc, files, look) {
        Ok(sheet) => put_both(&sheet, out, errors),
        Err(NoMemory) => put_no_memory(out),
    }
}
