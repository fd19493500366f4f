// The certificate of a run.
ghost use Rattle.std.specs.Prelude.{◌≡◌, ◌≤◌, OnOk, OnErr, IsErrOf};
ghost use Rattle.ub_base.specs.Causes.{Rose};
ghost use Rattle.audit_verdict.specs.Cause.{IsCertified, Spares};
ghost use Rattle.footprint_run.specs.Findings.{picks_of};

use audit_sources::{KeepFault, keep_certificate};
use certificate::Claim;
use certificate_making::of_audit;
use certificate_writing::to_json;
use footprint_run::{Audit, Finding};
use std::alloc::Global;
use ub_base::{Bytes, Files, NoMemory};

/// How many picks lead to a finding.
pub fn picks_of(finding: Finding) -> u64
    ensures { result ≡ picks_of finding }
{
    match finding {
        Finding::Clean { picks, .. } => picks,
        Finding::Undefined { picks, .. } => picks,
        Finding::OrderDependent { picks, .. } => picks,
        Finding::OutOfSteps { picks } => picks,
        Finding::Outside { picks, .. } => picks,
    }
}

// What a certificate says of a finding.
fn claim_of(finding: Finding, output: Bytes) -> Claim {
    match finding {
        Finding::Clean { status, .. } => Claim::Clean { status, output },
        Finding::Undefined {
            clause,
            event,
            race,
            ..
        } => Claim::Undefined {
            clause,
            pair: race.map(|race| (event, race.against)),
        },
        Finding::OrderDependent { event, against, .. } => Claim::OrderDependent { event, against },
        Finding::OutOfSteps { .. } => Claim::OutOfSteps,
        Finding::Outside { cause, number, .. } => Claim::Outside { cause, number },
    }
}

// The text of the certificate of a run.
fn text_of(alloc: Global, audit: Audit) -> Result<Bytes, NoMemory> {
    let Audit {
        finding,
        output,
        map,
        frames,
        ..
    } = audit;
    let claim = claim_of(finding, output);
    let cert = of_audit(alloc, claim, picks_of(finding), &map, &frames)?;
    to_json(alloc, &cert)
}

/// Keeps the certificate of a run.
pub fn certify<F: Files>(
    alloc: Global,
    audit: Audit,
    name: &str,
    files: &mut F,
) -> Result<(), KeepFault>
    ensures kept { OnOk result (IsCertified name.now (F.held files.old) (F.held files.new)) }
    ensures others { OnErr result (Spares name.now (F.held files.old) (F.held files.new)) }
    ensures too_long { IsErrOf result KeepFault.TooLong → F.held files.new ≡ F.held files.old }
    ensures failed { IsErrOf result KeepFault.Failed → Rose (F.write_faults files.old) (F.write_faults files.new) }
{
    let text = match text_of(alloc, audit) {
        Ok(text) => text,
        Err(NoMemory) => return Err(KeepFault::NoMemory),
    };
    keep_certificate(alloc, name, text.as_slice(), files)
}
