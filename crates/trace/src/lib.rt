//! The trace of a replay, read line by line, and the lines of its listing.
#![tactic(auto)]

mod cursor;
pub mod line;
pub mod lines;
pub mod listing;
pub mod reader;
