//! What travels: an instruction, cut into fragments, each in a datagram.
#![tactic(auto)]

mod bytes;
pub mod datagram;
pub mod fragment;
pub mod instruction;
pub mod layout;
pub mod refusal;
pub mod sending;
