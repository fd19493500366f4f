//! Certificates of runs: their parts, their form, and the answers of a check of one.
#![tactic(auto)]

mod answer;
mod cert;

pub use answer::{Answer, Part};
pub use cert::{Cert, CertFault, Claim, Field, Rows, Segment, Segments, Version};
