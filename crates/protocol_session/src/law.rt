//! The law of a session, for any two kinds of state.
ghost use Rattle.protocol_session.specs.Law.{SessionLaw};

use state::state::State;

/// Over any radio: what is shown is right and never goes back, and both ends can catch up.
pub fn session_stands<K: State, L: State>()
    ensures { SessionLaw K.State.kind L.State.kind }
{}
