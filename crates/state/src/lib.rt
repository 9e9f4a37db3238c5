//! What a kind of state offers, why a diff is refused, and the layer that ends a diff with its checksum.
#![tactic(auto)]

pub mod check;
pub mod checksum;
pub mod fault;
pub mod state;
