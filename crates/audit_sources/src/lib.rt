//! The files that a command names: fetched in turn, each within its limit, and a certificate kept.
#![tactic(auto)]

mod fetch;
mod keep;
mod role;

pub use fetch::{
    CheckSources, FetchFault, Sources, fetch_check_sources, fetch_file, fetch_sources,
};
pub use keep::{KeepFault, keep_certificate};
pub use role::Role;
