//! The half-made instruction: what puts an instruction together from its fragments, in whatever order they come.
#![tactic(auto)]

pub mod assembly;
pub mod half;
mod marks;
pub mod offer;
mod placing;
mod sound;
