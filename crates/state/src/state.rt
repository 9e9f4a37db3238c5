//! A kind of state.
ghost use Rattle.std.specs.Prelude.{◌≡◌, ◌≤◌, length, IfOk};
ghost use Rattle.state.specs.Kind.{Kind, Exact, Itself, Onward, Reaches, Lawful, sized, diffed, written, Applied};

use crate::fault::{DiffRefusal, StateFault};

/// The six things that a kind of state offers. `kind` says what they mean by contents alone; `reading` gives a value's contents.
pub trait State: Copy {
    ghost kind: { Kind };

    ghost reading: { Self → kind.Contents };

    /// The state that both ends begin with.
    fn start() -> Self
        ensures { reading result ≡ kind.start };

    /// Whether two states have equal contents.
    fn same(&self, other: &Self) -> bool
        ensures { result ≡ kind.same (reading self.now) (reading other.now) };

    /// Whether this state may come after `base`.
    fn follows(&self, base: &Self) -> bool
        ensures { result ≡ kind.follows (reading base.now) (reading self.now) };

    /// How many bytes the diff from `base` has; 65,535 also stands for more, and 0 for a state that doesn't follow.
    // Stays: docs/STATES.md lays down what 0 and 65,535 mean, and `sized` says it; a kind offers this as it is.
    fn size(&self, base: &Self) -> usize
        ensures { result ≡ sized kind (reading base.now) (reading self.now) };

    /// Writes the diff from `base` to this state at the front of `out`, and gives its length.
    fn diff(&self, base: &Self, out: &mut [u8]) -> Result<usize, DiffRefusal>
        ensures answer { result ≡ diffed kind (reading base.now) (reading self.now) out.old }
        ensures buffer { out.new ≡ written kind (reading base.now) (reading self.now) out.old }
        ensures within { IfOk result (λ n. n ≤ length out.old) };

    /// Takes a diff into this state; a refusal leaves it as it was.
    fn apply(&mut self, d: &[u8]) -> Result<(), StateFault>
        ensures { Applied kind reading self.old d.now self.new result };

    // What `same` means, and then the three laws that a kind owes.
    ghost exact: { Exact kind };

    ghost itself: { Itself kind };

    ghost onward: { Onward kind };

    ghost reaches: { Reaches kind };
}

/// Every kind keeps the three laws, and its `same` is equality of contents.
pub fn laws_hold<K: State>()
    ensures { Lawful K.State.kind }
{}
