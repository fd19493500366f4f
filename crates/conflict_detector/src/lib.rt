//! Follows the evaluations of a run, and finds its first conflict.
#![tactic(auto)]

mod completions;
mod detector;
mod ends;
mod examined;
mod frames;
mod laws;
mod seen;
mod standing;
mod steps;

pub use detector::Detector;
pub use examined::{Examined, Expressions};
pub use frames::RecordedFrames;
pub use laws::{law_beginnings, law_parts};
pub use seen::Seen;
