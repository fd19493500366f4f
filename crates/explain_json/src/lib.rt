//! Explanations as JSON.
#![tactic(auto)]

mod json;

pub use json::{Reported, put_case_json, put_refusal_json, put_report_json};
