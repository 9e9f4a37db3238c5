//! Runs of two ends, and the law of a session.
#![tactic(auto)]

pub mod law;
