//! What the calls of an end answer.
ghost use Rattle.std.specs.Prelude.{◌≡◌, Some};
ghost use Rattle.protocol.specs.Answers.{tick_told, take_told};

use packet::sending::Sent;
use std::fmt;

/// What a tick did: nothing was due, or an instruction went out.
// Stays: `Option<Sent>` has as many cases, but its `Display` and its `n` would not be those of a tick's answer, which are told beside those of `Taken`.
#[derive(Clone, Copy, PartialEq, Eq, Debug)]
pub enum Ticked {
    Idle,
    Sent { sent: Sent },
}

impl fmt::Display for Ticked {
    ghost output = { λ t. Some (tick_told t).word };

    fn fmt<W: fmt::Write>(&self, f: &mut fmt::Formatter<W>) -> fmt::Result {
        f.write_str(Ticked::word(*self))
    }
}

impl Ticked {
    /// The word for it.
    // Stays: `Display` may fail and needs a writer, and this gives the word of any answer without either.
    pub fn word(self) -> &'static str
        ensures { result.now ≡ (tick_told self).word }
    {
        match self {
            Ticked::Idle => "idle",
            Ticked::Sent { .. } => "sent",
        }
    }

    /// The number beside the word: how many datagrams were sent.
    pub fn n(self) -> usize
        ensures { result ≡ (tick_told self).n }
    {
        match self {
            Ticked::Idle => 0,
            Ticked::Sent { sent } => sent.count,
        }
    }
}

/// What a take did: a fragment more of an instruction, or what became of an instruction's new number.
#[derive(Clone, Copy, PartialEq, Eq, Debug)]
pub enum Taken {
    Part { fragment: u8 },
    Shown { new: u32 },
    Filled { new: u32 },
    Again { new: u32 },
    Baseless { new: u32 },
}

impl fmt::Display for Taken {
    ghost output = { λ t. Some (take_told t).word };

    fn fmt<W: fmt::Write>(&self, f: &mut fmt::Formatter<W>) -> fmt::Result {
        f.write_str(Taken::word(*self))
    }
}

impl Taken {
    /// The word for it.
    // Stays: `Display` may fail and needs a writer, and this gives the word of any answer without either.
    pub fn word(self) -> &'static str
        ensures { result.now ≡ (take_told self).word }
    {
        match self {
            Taken::Part { .. } => "part",
            Taken::Shown { .. } => "shown",
            Taken::Filled { .. } => "filled",
            Taken::Again { .. } => "again",
            Taken::Baseless { .. } => "baseless",
        }
    }

    /// The number beside the word: the fragment's, or the instruction's new one.
    pub fn n(self) -> u32
        ensures { result ≡ (take_told self).n }
    {
        match self {
            Taken::Part { fragment } => u32::from(fragment),
            Taken::Shown { new }
            | Taken::Filled { new }
            | Taken::Again { new }
            | Taken::Baseless { new } => new,
        }
    }
}
