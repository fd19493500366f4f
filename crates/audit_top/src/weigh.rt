// The answer to a source and a certificate for it.
ghost use Rattle.std.specs.Prelude.{◌≡◌, ◌≤◌, ◌^◌, length, IfErr, IfOk};
ghost use Rattle.audit_top.specs.Cause.{CertificateCause, WeighedCause, WhyBad};
ghost use Rattle.certificate_text.specs.Reading.{States};

use audit_sources::CheckSources;
use audit_verdict::{Answer, BadCertificate, FrontFault, program_of};
use c_typed::Program;
use cert_check::check;
use certificate::{Cert, CertFault};
use certificate_text::from_json;
use std::alloc::Global;
use ub_base::NoMemory;

// Why a text has no certificate.
enum CertificateFault {
    Bad(BadCertificate),
    NoMemory,
}

// The certificate of a text.
fn certificate_of(alloc: Global, text: &[u8]) -> Result<Cert, CertificateFault>
    ensures states { IfOk result (States text.now) }
    ensures bad { IfErr result (WhyBad text.now) }
{
    match from_json(alloc, text) {
        Ok(cert) => Ok(cert),
        Err(CertFault::NotJson) => Err(CertificateFault::Bad(BadCertificate::NotJson)),
        Err(CertFault::BadShape(field)) => {
            Err(CertificateFault::Bad(BadCertificate::Wrong(field)))
        }
        Err(CertFault::NoMemory) => Err(CertificateFault::NoMemory),
    }
}

// The answer to a program and the text of a certificate.
fn by_certificate(
    alloc: Global,
    program: &Program,
    args: &[String],
    sources: &CheckSources,
) -> Answer
    ensures { WeighedCause sources.now.certificate result }
{
    let cert = match certificate_of(alloc, sources.certificate.as_slice()) {
        Ok(cert) => cert,
        Err(CertificateFault::Bad(bad)) => return Answer::Bad(bad),
        Err(CertificateFault::NoMemory) => return Answer::NoMemory,
    };
    match check(alloc, program, sources.input.as_slice(), args, &cert) {
        Ok(verdict) => Answer::Checked(verdict),
        Err(NoMemory) => Answer::NoMemory,
    }
}

/// The answer to a source, a certificate and an input.
pub fn weighed(alloc: Global, args: &[String], sources: &CheckSources) -> Answer
    requires { length sources.now.text ≤ 2 ^ 20 }
    ensures { CertificateCause sources.now.text sources.now.certificate result }
{
    match program_of(alloc, sources.text.as_slice()) {
        Ok(program) => by_certificate(alloc, &program, args, sources),
        Err(FrontFault::Refused(refusal)) => Answer::Refused(refusal),
        Err(FrontFault::NoMemory) => Answer::NoMemory,
    }
}
