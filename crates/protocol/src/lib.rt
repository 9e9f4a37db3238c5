//! An end of the protocol, defined: what its calls answer, why they refuse, and theorems of the definitions.
#![tactic(auto)]

pub mod answer;
pub mod edges;
pub mod fault;
pub mod own;
