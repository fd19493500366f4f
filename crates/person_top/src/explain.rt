// The report of an audit, and why.
ghost use Rattle.std.specs.Prelude.{◌≡◌, ◌≤◌, None, option_copied};
ghost use Rattle.audit_batch.specs.Moment.{moment};
ghost use Rattle.person_top.specs.Ends.{EndsTold};

use crate::put::{put_no_memory, put_text};
use person_command::ExplainRequest;
use std::alloc::Global;
use ub_base::{Bytes, Files, NoMemory, Sink};

/// What is put, and the status.
#[derive(Drop)]
pub struct Page {
    pub status: u8,
    pub text: Bytes,
}

/// Explains runs.
pub trait Explainer {
    ghost use Rattle.std.specs.Prelude.{◌≡◌, ◌≤◌, ℕ, List, None, IfOk, option_copied};
    ghost use Rattle.audit_batch.specs.Moment.{Moment, moment};
    ghost use Rattle.person_command.specs.declared.person_request.ExplainRequest.{ExplainRequest};

    /// Whether this request may have this status and this text, while the files went from one moment to the next.
    ghost explains: { Self → Moment → Moment → ExplainRequest → ℕ → List ℕ → Type 0 };

    fn explain<F: Files>(
        &self,
        alloc: Global,
        files: &mut F,
        request: &ExplainRequest<'_>,
    ) -> Result<Page, NoMemory>
        requires steps { request.now.audit.steps ≤ 100000000 }
        requires cert { option_copied request.now.audit.cert ≡ None }
        ensures page { IfOk result (λ page. explains self.now
            (moment (F.held files.old) (F.read_faults files.old) (F.write_faults files.old))
            (moment (F.held files.new) (F.read_faults files.new) (F.write_faults files.new))
            request.now page.status page.text) }
        ensures held { F.held files.new ≡ F.held files.old };
}

/// Explains a run, and puts that.
pub fn explain<A: Explainer, F: Files, O: Sink>(
    alloc: Global,
    request: &ExplainRequest<'_>,
    explainer: &A,
    files: &mut F,
    out: &mut O,
) -> u8
    requires steps { request.now.audit.steps ≤ 100000000 }
    requires cert { option_copied request.now.audit.cert ≡ None }
    ensures ends { EndsTold (A.explains explainer.now
        (moment (F.held files.old) (F.read_faults files.old) (F.write_faults files.old))
        (moment (F.held files.new) (F.read_faults files.new) (F.write_faults files.new)) request.now)
        (O.told out.old) (O.told out.new) (O.faults out.old) (O.faults out.new) result }
    ensures held { F.held files.new ≡ F.held files.old }
{
    match explainer.explain(alloc, files, request) {
        Ok(page) => put_text(out, page.text.as_slice(), page.status),
        Err(NoMemory) => put_no_memory(out),
    }
}
