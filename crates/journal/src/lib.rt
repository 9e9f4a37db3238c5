//! The reader's journal: keys and taps in the order in which they came.
#![tactic(auto)]

pub mod edit;
pub mod entry;
pub mod journal;
pub mod kind;
