//! The verdict on a text: its program, the run of that, the report of what is found, and the certificate that is kept.
#![tactic(auto)]

mod answer;
mod certify;
mod finding;
mod front;
mod judge;
mod request;
mod run;
mod value;

pub use answer::{Answer, BadCertificate, Refusal};
pub use certify::picks_of;
pub use footprint_run::{Progress, Quiet};
pub use front::{FrontFault, program_of};
pub use judge::{judged, self_audit};
pub use request::{audit, stopped};
