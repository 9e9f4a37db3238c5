//! What an end keeps of itself, as theorems of the definitions.
ghost use Rattle.endpoint.specs.Chain.{Follows};
ghost use Rattle.endpoint.specs.Own.{Stays};

use state::state::State;

/// Every call leaves an end's numbers, times and counts within their bounds.
// Stays: a landed theorem stands over the definitions that it landed with; that of `protocol` speaks of another definition of an end, so neither is an instance of the other.
pub fn numbers_stay<K: State, L: State>()
    ensures { Stays K.State.kind L.State.kind }
{}

/// Every call leaves the states that an end has sent in a chain, so no tick finds a target that doesn't follow.
// Stays: a landed theorem stands over the definitions that it landed with; that of `protocol` speaks of another definition of an end, so neither is an instance of the other.
pub fn states_follow<K: State, L: State>()
    ensures { Follows K.State.kind L.State.kind }
{}
