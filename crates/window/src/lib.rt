//! A numbered window over a lent store: which numbers are held, and where their elements lie.
#![tactic(auto)]

pub mod answers;
pub mod numbers;
pub mod table;
pub mod window;
