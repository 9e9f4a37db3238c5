//! What an end keeps of itself, as theorems of the definitions.
ghost use Rattle.protocol.specs.Chain.{Follows};
ghost use Rattle.protocol.specs.Own.{Stays};

use state::state::State;

/// Every call leaves an end's numbers, times and counts within their bounds.
pub fn numbers_stay<K: State, L: State>()
    ensures { Stays K.State.kind L.State.kind }
{}

/// Every call leaves the states that an end has sent in a chain, so no tick finds a target that doesn't follow.
pub fn states_follow<K: State, L: State>()
    ensures { Follows K.State.kind L.State.kind }
{}
