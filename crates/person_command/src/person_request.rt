// What the words ask for by a command for a person.
use command::AuditRequest;

/// `explain FILE [--input F] [--steps N] [--tight] [--json] [--text] [ARGS]`.
#[derive(Drop)]
pub struct ExplainRequest<'a> {
    /// Without a certificate.
    pub audit: AuditRequest<'a>,
    pub is_json: bool,
    /// Lines are shown as they stand in the file that is read, and not as they were before it was preprocessed.
    pub is_text: bool,
}

/// `batch NAME.. [--program F] [--list] [--steps N] [--tight]`.
#[derive(Drop)]
pub struct BatchRequest<'a> {
    /// The programs, or the inputs where a program is given.
    pub names: Vec<String>,
    pub program: Option<&'a str>,
    /// Each name is that of a file with a name in each line.
    pub is_list: bool,
    /// The most steps of each run, from 1 to 100,000,000.
    pub steps: u64,
    pub is_tight: bool,
}

/// `story FILE NAME [--input F] [--steps N] [--tight] [ARGS]`.
#[derive(Drop)]
pub struct StoryRequest<'a> {
    /// Without a certificate.
    pub audit: AuditRequest<'a>,
    /// What should be an object's text.
    pub name: &'a str,
}

/// A further look at a program or at its run.
#[derive(Drop)]
pub enum Exploration<'a> {
    /// `errors FILE [--input F] [--steps N] [--tight] [ARGS]`, without a certificate.
    Errors(AuditRequest<'a>),
    /// `static FILE`.
    Static(&'a str),
    /// `swap FILE [--input F] [--steps N] [--tight] [ARGS]`, without a certificate.
    Swap(AuditRequest<'a>),
    Story(StoryRequest<'a>),
}

/// What the words ask for by a command for a person.
#[derive(Drop)]
pub enum PersonRequest<'a> {
    Explain(ExplainRequest<'a>),
    Batch(BatchRequest<'a>),
    /// Help on the command of this name, or on all.
    Help(Option<&'a str>),
    Version,
    Explore(Exploration<'a>),
}
