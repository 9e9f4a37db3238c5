//! The law of a session, for any two kinds of state.
ghost use Rattle.session.specs.Law.{SessionLaw};

use state::state::State;

/// Over any radio: what is shown is right and never goes back, and both ends can catch up.
// Stays: a landed theorem stands over the definitions that it landed with; that of `protocol_session` speaks of other definitions of an end and of a history, so neither is an instance of the other.
pub fn session_stands<K: State, L: State>()
    ensures { SessionLaw K.State.kind L.State.kind }
{}
