//! Texts with their tokens. No code.
#![tactic(auto)]

#[cfg(test)]
mod tokens;
