// Files are fetched in turn.
ghost use Rattle.std.specs.Prelude.{◌≡◌, ◌≤◌, IfOk, IfErr, length, option_copied};
ghost use Rattle.audit_sources.specs.Fetching.{IsWhole, Misses, Stops, HasInput, input_wanted, wanted, certificate_wanted, check_wanted};
ghost use Rattle.audit_sources.specs.Role.{most};

use crate::role::Role;
use std::alloc::Global;
use ub_base::{Bytes, Fetched, FileFault, Files};

/// Why a file isn't fetched.
#[derive(Clone, Copy, PartialEq, Eq)]
pub enum FetchFault {
    /// It isn't there, or a read failed.
    ReadFault,
    TooLong(Role),
    NoMemory,
}

/// The bytes of a file.
pub fn fetch_file<F: Files>(
    alloc: Global,
    role: Role,
    name: &str,
    files: &mut F,
) -> Result<Bytes, FetchFault>
    ensures whole { IfOk result (IsWhole (F.held files.old) (role, name.now)) }
    ensures within { IfOk result (λ bytes. length bytes ≤ most role) }
    ensures fault { IfErr result (Misses (F.held files.old) (F.read_faults files.old) (F.read_faults files.new) (role, name.now)) }
    ensures held { F.held files.new ≡ F.held files.old }
    ensures later { F.read_faults files.old ≤ F.read_faults files.new }
    ensures writes { F.write_faults files.new ≡ F.write_faults files.old }
{
    match files.fetch(alloc, name, role.most()) {
        Ok(Fetched::Whole(bytes)) => Ok(bytes),
        Ok(Fetched::TooLong) => Err(FetchFault::TooLong(role)),
        Ok(Fetched::Absent) => Err(FetchFault::ReadFault),
        Err(FileFault::Failed) => Err(FetchFault::ReadFault),
        Err(FileFault::NoMemory) => Err(FetchFault::NoMemory),
    }
}

// The input of the program, which is empty where no file is named.
fn fetch_input<F: Files>(
    alloc: Global,
    name: Option<&str>,
    files: &mut F,
) -> Result<Bytes, FetchFault>
    ensures input { IfOk result (HasInput (F.held files.old) (option_copied name.entry)) }
    ensures fault { IfErr result (Stops (F.held files.old) (F.read_faults files.old) (F.read_faults files.new) (input_wanted (option_copied name.entry))) }
    ensures held { F.held files.new ≡ F.held files.old }
    ensures writes { F.write_faults files.new ≡ F.write_faults files.old }
{
    match name {
        Some(name) => fetch_file(alloc, Role::Input, name, files),
        None => Ok(Bytes::from_vec(Vec::new(alloc))),
    }
}

/// The texts that an audit reads.
#[derive(Drop)]
pub struct Sources {
    pub text: Bytes,
    pub input: Bytes,
}

/// The source, and then the input.
pub fn fetch_sources<F: Files>(
    alloc: Global,
    source: &str,
    input: Option<&str>,
    files: &mut F,
) -> Result<Sources, FetchFault>
    ensures source { IfOk result (λ found. IsWhole (F.held files.old) (Role.Source, source.now) found.text) }
    ensures within { IfOk result (λ found. length found.text ≤ most Role.Source) }
    ensures input { IfOk result (λ found. HasInput (F.held files.old) (option_copied input.entry) found.input) }
    ensures fault { IfErr result (Stops (F.held files.old) (F.read_faults files.old) (F.read_faults files.new)
        (wanted source.now (option_copied input.entry))) }
    ensures held { F.held files.new ≡ F.held files.old }
    ensures writes { F.write_faults files.new ≡ F.write_faults files.old }
{
    let text = fetch_file(alloc, Role::Source, source, files)?;
    match fetch_input(alloc, input, files) {
        Ok(input) => Ok(Sources { text, input }),
        Err(fault) => Err(fault),
    }
}

/// The texts that a check of a certificate reads.
#[derive(Drop)]
pub struct CheckSources {
    pub text: Bytes,
    pub certificate: Bytes,
    pub input: Bytes,
}

// The certificate, and then the input.
fn fetch_certificate<F: Files>(
    alloc: Global,
    certificate: &str,
    input: Option<&str>,
    files: &mut F,
) -> Result<(Bytes, Bytes), FetchFault>
    ensures certificate { IfOk result (λ found. IsWhole (F.held files.old) (Role.Certificate, certificate.now) found.0) }
    ensures input { IfOk result (λ found. HasInput (F.held files.old) (option_copied input.entry) found.1) }
    ensures fault { IfErr result (Stops (F.held files.old) (F.read_faults files.old) (F.read_faults files.new)
        (certificate_wanted certificate.now (option_copied input.entry))) }
    ensures held { F.held files.new ≡ F.held files.old }
    ensures writes { F.write_faults files.new ≡ F.write_faults files.old }
{
    let certificate = fetch_file(alloc, Role::Certificate, certificate, files)?;
    let fetched = fetch_input(alloc, input, files);
    match fetched {
        Ok(input) => Ok((certificate, input)),
        Err(fault) => Err(fault),
    }
}

/// The source, the certificate, and then the input.
pub fn fetch_check_sources<F: Files>(
    alloc: Global,
    source: &str,
    certificate: &str,
    input: Option<&str>,
    files: &mut F,
) -> Result<CheckSources, FetchFault>
    ensures source { IfOk result (λ found. IsWhole (F.held files.old) (Role.Source, source.now) found.text) }
    ensures within { IfOk result (λ found. length found.text ≤ most Role.Source) }
    ensures certificate { IfOk result (λ found. IsWhole (F.held files.old) (Role.Certificate, certificate.now) found.certificate) }
    ensures input { IfOk result (λ found. HasInput (F.held files.old) (option_copied input.entry) found.input) }
    ensures fault { IfErr result (Stops (F.held files.old) (F.read_faults files.old) (F.read_faults files.new)
        (check_wanted source.now certificate.now (option_copied input.entry))) }
    ensures held { F.held files.new ≡ F.held files.old }
    ensures writes { F.write_faults files.new ≡ F.write_faults files.old }
{
    let text = fetch_file(alloc, Role::Source, source, files)?;
    match fetch_certificate(alloc, certificate, input, files) {
        Ok((certificate, input)) => Ok(CheckSources {
            text,
            certificate,
            input,
        }),
        Err(fault) => Err(fault),
    }
}
