//! The words of the command line, read by `clap`.
#![tactic(auto)]

mod app;
mod read;
mod request;

pub use app::{
    args_arg, cub_without_commands, file_arg, steps_arg, tight_arg, with_arg, with_command,
    with_run_args,
};
pub use read::{MAX_STEPS, is_set, number_of, read_words, text_given, text_of, texts_of};
pub use request::{AuditRequest, CheckRequest, Request, SelfRequest, WordFault};
