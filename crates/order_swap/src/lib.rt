//! Both orders of two evaluations that no rule orders: the canonical order, and one that takes the second before the first.
#![tactic(auto)]

mod answer;
mod course;
mod end;
mod guide;
mod next;
mod numbers;
mod runs;
mod set;
mod swap;
mod text;

pub use answer::{Steps, Swapped, Trail};
pub use course::{Followed, follow};
pub use end::End;
pub use guide::{Canonical, Guide};
pub use runs::swap_run;
pub use set::post_order;
pub use text::swapped_text;
