//! Why a diff is not written, why one can't be applied, and why a state can't be edited.
ghost use Rattle.std.specs.Prelude.{◌≡◌, Some};
ghost use Rattle.state.specs.Faults.{cause_of, place_of, moved_by, fault_words, diff_refusal_of, refusal_text, edit_refusal_of};

use std::fmt;
use std::fmt::Write;

/// Why a diff can't be applied, with the place in the outermost diff at which the bad part begins.
// Stays: a kind's fault is an enum, which a take's fault holds whole, by a rule of the project; callers match on its cases, each with its place.
#[derive(Clone, Copy, PartialEq, Eq, Debug)]
pub enum StateFault {
    BadCheck { at: usize },
    BadRun { at: usize },
    BadEntry { at: usize },
    TooManyEntries { at: usize },
}

impl StateFault {
    /// The number of the cause.
    pub fn cause(self) -> u8
        ensures { result ≡ cause_of self }
    {
        match self {
            StateFault::BadCheck { .. } => 1,
            StateFault::BadRun { .. } => 2,
            StateFault::BadEntry { .. } => 3,
            StateFault::TooManyEntries { .. } => 4,
        }
    }

    /// The first byte of the bad part.
    pub fn place(self) -> usize
        ensures { result ≡ place_of self }
    {
        match self {
            StateFault::BadCheck { at }
            | StateFault::BadRun { at }
            | StateFault::BadEntry { at }
            | StateFault::TooManyEntries { at } => at,
        }
    }

    /// The same fault, told of a diff in which the inner one starts at `by`.
    pub fn moved(self, by: usize) -> StateFault
        ensures { result ≡ moved_by by self }
    {
        let at = self.place().saturating_add(by);
        // Stays: a write through `at` of an or-pattern was tried, and the proof then knows nothing of what it leaves in the fault.
        match self {
            StateFault::BadCheck { .. } => StateFault::BadCheck { at },
            StateFault::BadRun { .. } => StateFault::BadRun { at },
            StateFault::BadEntry { .. } => StateFault::BadEntry { at },
            StateFault::TooManyEntries { .. } => StateFault::TooManyEntries { at },
        }
    }
}

impl fmt::Display for StateFault {
    ghost output = { λ fault. Some (fault_words fault) };

    fn fmt<W: fmt::Write>(&self, f: &mut fmt::Formatter<W>) -> fmt::Result {
        write!(f, "cause {} at {}", self.cause(), self.place())
    }
}

/// Why a diff is not written.
#[derive(Clone, Copy, PartialEq, Eq, Debug)]
pub enum DiffRefusal {
    NotFollowing = 7,
    TooLong = 9,
}

impl DiffRefusal {
    // Stays: `as u8` works on an enum and not on a type parameter, so each enum has its own.
    /// The number of the refusal.
    pub fn number(self) -> u8
        ensures { result ≡ diff_refusal_of self }
    {
        self as u8
    }
}

// Stays: one impl for every refusal under a trait of ours would overlap others, and a macro that wrote the impls could not state their output.
impl fmt::Display for DiffRefusal {
    ghost output = { λ refusal. Some (refusal_text (diff_refusal_of refusal)) };

    fn fmt<W: fmt::Write>(&self, f: &mut fmt::Formatter<W>) -> fmt::Result {
        write!(f, "no{}", self.number())
    }
}

/// Why a state is not given an entry or a character.
#[derive(Clone, Copy, PartialEq, Eq, Debug)]
pub enum EditRefusal {
    OutsideField,
    Full,
}

impl EditRefusal {
    /// The number of the refusal.
    // Stays: the two cases have one number, which no discriminants can say.
    pub fn number(self) -> u8
        ensures { result ≡ edit_refusal_of self }
    {
        match self {
            EditRefusal::OutsideField | EditRefusal::Full => 6,
        }
    }
}
