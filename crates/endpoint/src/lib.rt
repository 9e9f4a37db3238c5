//! An end of the protocol: what its calls answer and why they refuse, and theorems of the definitions.
#![tactic(auto)]

pub mod edges;
pub mod own;

pub use protocol::{answer, fault};
