//! The files and the standard output of the host, as ub_base's traits have them.
#![tactic(auto)]

mod host;

pub use host::{HostFiles, HostSink};
