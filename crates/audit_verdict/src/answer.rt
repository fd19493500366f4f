// What the command answers, as the report says it.
ghost use Rattle.std.specs.Prelude.{◌≡◌, ◌++◌, IfOk};
ghost use Rattle.audit_verdict.specs.Report.{numbered, syntax_report, clean_report, undefined_report, refusal_report, too_long_report, summary_report};
ghost use Rattle.audit_verdict.specs.Report.{verdict_report, verdict_status, bad_word, bad_report};

use audit_sources::Role;
use certificate::{Answer as Verdict, Field, Part};
use itoa::Buffer;
use std::alloc::Global;
use ub_base::{Bytes, Clause, NoMemory};

/// Why a source isn't run.
#[derive(Clone, Copy)]
pub enum Refusal {
    /// The bytes at this offset begin no token.
    Stray(u32),
    /// The literal or comment at this offset isn't closed.
    OpenLiteral(u32),
    /// The number at this offset is no integer constant.
    BadNumber(u32),
    /// The brackets and operators nest so deep.
    TooDeep(u32),
    /// The syntax tree or the typed tree is so high.
    TooHigh(u32),
    /// No program goes on with this token, which stands in this line.
    Syntax { token: u32, line: u32 },
    /// A constraint is broken, or the profile is left, in this line.
    NotTyped(u32),
}

/// Why a text is no certificate.
#[derive(Clone, Copy)]
pub enum BadCertificate {
    /// It is no JSON.
    NotJson,
    /// This is the first wrong member of its value.
    Wrong(Field),
}

/// What a program was generated from, and how many bytes it has.
#[derive(Clone, Copy)]
pub struct Summary {
    pub seed: u64,
    pub lines: u64,
    pub size: usize,
}

/// What the command answers.
#[derive(Drop)]
pub enum Answer {
    /// The verdicts on a unit of the first form.
    Clean {
        status: u8,
    },
    Undefined {
        clause: Clause,
        line: u32,
    },
    /// The verdict on a run, with its report.
    Found {
        status: u8,
        report: Bytes,
    },
    /// The verdict on the run of a generated program.
    Generated {
        summary: Summary,
        status: u8,
        report: Bytes,
    },
    /// A generated program isn't run.
    GeneratedRefused {
        summary: Summary,
        refusal: Refusal,
    },
    /// Whether the certificate that was given holds.
    Checked(Verdict),
    /// The text that was given is no certificate.
    Bad(BadCertificate),
    Usage,
    /// A file that is read has too many bytes.
    TooLong(Role),
    Refused(Refusal),
    /// The certificate that was made has too many bytes.
    CertificateTooLong,
    /// The certificate can't be written.
    NotKept,
    ReadFault,
    NoMemory,
}

impl Refusal {
    ghost use Rattle.audit_verdict.specs.Report.{refusal_status, refusal_report};

    pub fn status(self) -> u8
        ensures { result ≡ refusal_status self }
    {
        match self {
            Refusal::Stray(_) => 11,
            Refusal::OpenLiteral(_) => 11,
            Refusal::BadNumber(_) => 11,
            Refusal::TooDeep(_) => 15,
            Refusal::TooHigh(_) => 15,
            Refusal::Syntax { .. } => 12,
            Refusal::NotTyped(_) => 13,
        }
    }

    pub fn report(self, alloc: Global) -> Result<Bytes, NoMemory>
        ensures { IfOk result (λ bytes. bytes ≡ refusal_report self) }
    {
        match self {
            Refusal::Stray(at) => numbered(alloc, b"lex stray ", at),
            Refusal::OpenLiteral(at) => numbered(alloc, b"lex open literal ", at),
            Refusal::BadNumber(at) => numbered(alloc, b"lex bad number ", at),
            Refusal::TooDeep(count) => numbered(alloc, b"too deep ", count),
            Refusal::TooHigh(count) => numbered(alloc, b"too deep ", count),
            Refusal::Syntax { token, line } => syntax(alloc, token, line),
            Refusal::NotTyped(line) => numbered(alloc, b"not typed line ", line),
        }
    }
}

// A line of these words and a number.
fn numbered(alloc: Global, words: &[u8], number: u32) -> Result<Bytes, NoMemory>
    ensures { IfOk result (λ bytes. bytes ≡ numbered words.now number) }
{
    let mut digits = Buffer::new();
    let mut bytes = Bytes::from_slice(alloc, words)?;
    bytes.append(digits.format(number).as_bytes())?;
    bytes.append(b"\n")?;
    Ok(bytes)
}

fn syntax(alloc: Global, token: u32, line: u32) -> Result<Bytes, NoMemory>
    ensures { IfOk result (λ bytes. bytes ≡ syntax_report token line) }
{
    let mut digits = Buffer::new();
    let mut bytes = Bytes::from_slice(alloc, b"syntax token ")?;
    bytes.append(digits.format(token).as_bytes())?;
    bytes.append(b" line ")?;
    bytes.append(digits.format(line).as_bytes())?;
    bytes.append(b"\n")?;
    Ok(bytes)
}

fn clean(alloc: Global, status: u8) -> Result<Bytes, NoMemory>
    ensures { IfOk result (λ bytes. bytes ≡ clean_report status) }
{
    let mut digits = Buffer::new();
    let mut bytes = Bytes::from_slice(alloc, b"clean\nexit ")?;
    bytes.append(digits.format(status).as_bytes())?;
    bytes.append(b"\noutput 0\n")?;
    Ok(bytes)
}

fn undefined(alloc: Global, clause: Clause, line: u32) -> Result<Bytes, NoMemory>
    ensures { IfOk result (λ bytes. bytes ≡ undefined_report clause line) }
{
    let mut digits = Buffer::new();
    let mut bytes = Bytes::from_slice(alloc, b"undefined ")?;
    bytes.append(clause.text().as_bytes())?;
    bytes.append(b"\nevent main 2 0 val line ")?;
    bytes.append(digits.format(line).as_bytes())?;
    bytes.append(b"\norder canonical 3\n")?;
    Ok(bytes)
}

fn too_long(role: Role) -> &'static [u8]
    ensures { result.now ≡ too_long_report role }
{
    match role {
        Role::Source => b"too long source 1048576\n",
        Role::Certificate => b"too long certificate 67108864\n",
        Role::Input => b"too long input 16777216\n",
    }
}

fn verdict_report(verdict: Verdict) -> &'static [u8]
    ensures { result.now ≡ verdict_report verdict }
{
    match verdict {
        Verdict::Yes => b"yes\n",
        Verdict::No(Part::Map) => b"no map\n",
        Verdict::No(Part::Order) => b"no order\n",
        Verdict::No(Part::Claim) => b"no claim\n",
    }
}

fn verdict_status(verdict: Verdict) -> u8
    ensures { result ≡ verdict_status verdict }
{
    match verdict {
        Verdict::Yes => 0,
        Verdict::No(_) => 5,
    }
}

// The word for what is wrong.
fn bad_word(bad: BadCertificate) -> &'static str
    ensures { result.now ≡ bad_word bad }
{
    match bad {
        BadCertificate::NotJson => "json",
        BadCertificate::Wrong(field) => field.text(),
    }
}

fn bad_certificate(alloc: Global, bad: BadCertificate) -> Result<Bytes, NoMemory>
    ensures { IfOk result (λ bytes. bytes ≡ bad_report bad) }
{
    let mut bytes = Bytes::from_slice(alloc, b"bad certificate ")?;
    bytes.append(bad_word(bad).as_bytes())?;
    bytes.append(b"\n")?;
    Ok(bytes)
}

fn summary_text(alloc: Global, summary: Summary) -> Result<Bytes, NoMemory>
    ensures { IfOk result (λ bytes. bytes ≡ summary_report summary) }
{
    let mut digits = Buffer::new();
    let mut bytes = Bytes::from_slice(alloc, b"self ")?;
    bytes.append(digits.format(summary.seed).as_bytes())?;
    bytes.append(b" ")?;
    bytes.append(digits.format(summary.lines).as_bytes())?;
    bytes.append(b"\nsource ")?;
    bytes.append(digits.format(summary.size).as_bytes())?;
    bytes.append(b"\n")?;
    Ok(bytes)
}

// The summary of a generated program, and then the report of its audit.
fn generated(alloc: Global, of: Summary, report: &[u8]) -> Result<Bytes, NoMemory>
    ensures { IfOk result (λ bytes. bytes ≡ summary_report of ++ report.now) }
{
    let mut bytes = summary_text(alloc, of)?;
    bytes.append(report)?;
    Ok(bytes)
}

// The summary of a generated program, and then why it isn't run.
fn generated_refused(alloc: Global, of: Summary, refusal: Refusal) -> Result<Bytes, NoMemory>
    ensures { IfOk result (λ bytes. bytes ≡ summary_report of ++ refusal_report refusal) }
{
    let report = refusal.report(alloc)?;
    generated(alloc, of, report.as_slice())
}

impl Answer {
    ghost use Rattle.audit_verdict.specs.Report.{status, report};

    pub fn status(&self) -> u8
        ensures { result ≡ status self.now }
    {
        match self {
            Answer::Clean { .. } => 0,
            Answer::Undefined { .. } => 1,
            Answer::Found { status, .. } => *status,
            Answer::Generated { status, .. } => *status,
            Answer::GeneratedRefused { refusal, .. } => refusal.status(),
            Answer::Checked(verdict) => verdict_status(*verdict),
            Answer::Bad(_) => 16,
            Answer::Usage => 10,
            Answer::TooLong(_) => 14,
            Answer::Refused(refusal) => refusal.status(),
            Answer::CertificateTooLong => 14,
            Answer::NotKept => 21,
            Answer::ReadFault => 20,
            Answer::NoMemory => 30,
        }
    }

    pub fn report(&self, alloc: Global) -> Result<Bytes, NoMemory>
        ensures { IfOk result (λ bytes. bytes ≡ report self.now) }
    {
        match self {
            Answer::Clean { status } => clean(alloc, *status),
            Answer::Undefined { clause, line } => undefined(alloc, *clause, *line),
            Answer::Found { report, .. } => Bytes::from_slice(alloc, report.as_slice()),
            Answer::Generated {
                summary,
                report,
                ..
            } => generated(alloc, *summary, report.as_slice()),
            Answer::GeneratedRefused { summary, refusal } => {
                generated_refused(alloc, *summary, *refusal)
            }
            Answer::Checked(verdict) => Bytes::from_slice(alloc, verdict_report(*verdict)),
            Answer::Bad(bad) => bad_certificate(alloc, *bad),
            Answer::Usage => Bytes::from_slice(alloc, b"usage\n"),
            Answer::TooLong(role) => Bytes::from_slice(alloc, too_long(*role)),
            Answer::Refused(refusal) => refusal.report(alloc),
            Answer::CertificateTooLong => Bytes::from_slice(alloc, too_long(Role::Certificate)),
            Answer::NotKept => Bytes::from_slice(alloc, b""),
            Answer::ReadFault => Bytes::from_slice(alloc, b"read fault\n"),
            Answer::NoMemory => Bytes::from_slice(alloc, b"no memory\n"),
        }
    }
}
