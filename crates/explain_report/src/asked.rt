// What is explained.

use addr_map::Mode;
use explain_page::Written;

/// A text and its run, with the report that an audit of it puts, and the status of that.
#[derive(Clone, Copy)]
pub struct Asked<'a> {
    /// The text, of at most 2^20 bytes.
    pub text: &'a [u8],
    /// The name of its file, as it was asked for.
    pub file: &'a [u8],
    /// The files that its line markers name, as far as they were read.
    pub written: &'a [Written],
    /// The name of the input, as it was asked for.
    pub input_name: Option<&'a str>,
    pub input: &'a [u8],
    /// The words behind the program's name.
    pub args: &'a [String],
    pub mode: Mode,
    /// The most steps, up to 100,000,000.
    pub steps: u64,
    pub report: &'a [u8],
    pub status: u8,
}
