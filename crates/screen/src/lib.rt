//! The kind of state Screen: eight rows of forty characters and a cursor.
#![tactic(auto)]

mod runs;
pub mod screen;
