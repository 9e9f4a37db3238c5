//! Why bytes are not read and why an instruction is not sent, by stage and in the order of the checks.
ghost use Rattle.std.specs.Prelude.{◌≡◌, Some};
ghost use Rattle.packet.specs.declared.refusal.ReadFault.TheVariants.{Datagram, Fragment};
ghost use Rattle.packet.specs.Refusals.{send_refusal_of, datagram_fault_of, fragment_fault_of, read_fault_of, instruction_fault_of};
ghost use Rattle.state.specs.Faults.{refusal_text};

use std::fmt;

/// Why an instruction is not sent.
#[derive(Clone, Copy, PartialEq, Eq, Debug)]
pub enum SendRefusal {
    ShortBuffer = 5,
    LongDiff = 9,
}

impl SendRefusal {
    // Stays: `as u8` works on an enum and not on a type parameter, so each enum has its own.
    /// The number of the refusal.
    pub fn number(self) -> u8
        ensures { result ≡ send_refusal_of self }
    {
        self as u8
    }
}

// Stays: one impl for every refusal under a trait of ours would overlap others, and a macro that wrote the impls could not state their output.
impl fmt::Display for SendRefusal {
    ghost output = { λ r. Some (refusal_text (send_refusal_of r)) };

    fn fmt<W: fmt::Write>(&self, f: &mut fmt::Formatter<W>) -> fmt::Result {
        write!(f, "no{}", SendRefusal::number(*self))
    }
}

/// Why bytes are no datagram for this end.
#[derive(Clone, Copy, PartialEq, Eq, Debug)]
pub enum DatagramFault {
    WrongLength = 10,
    OwnDirection = 11,
}

impl DatagramFault {
    /// The number of the refusal.
    pub fn number(self) -> u8
        ensures { result ≡ datagram_fault_of self }
    {
        self as u8
    }
}

/// Why a fragment is not taken: it is none, or it contradicts one of its sending that is held.
#[derive(Clone, Copy, PartialEq, Eq, Debug)]
pub enum FragmentFault {
    Malformed = 12,
    Contradiction = 13,
}

impl FragmentFault {
    /// The number of the refusal.
    pub fn number(self) -> u8
        ensures { result ≡ fragment_fault_of self }
    {
        self as u8
    }
}

impl fmt::Display for FragmentFault {
    ghost output = { λ f. Some (refusal_text (fragment_fault_of f)) };

    fn fmt<W: fmt::Write>(&self, f: &mut fmt::Formatter<W>) -> fmt::Result {
        write!(f, "no{}", FragmentFault::number(*self))
    }
}

/// Why a datagram is not read: its own fault, or that of the fragment in it.
#[derive(Clone, Copy, PartialEq, Eq, Debug)]
pub enum ReadFault {
    Datagram(DatagramFault),
    Fragment(FragmentFault),
}

impl ReadFault {
    /// The number of the refusal.
    pub fn number(self) -> u8
        ensures { result ≡ read_fault_of self }
    {
        match self {
            ReadFault::Datagram(fault) => fault.number(),
            ReadFault::Fragment(fault) => fault.number(),
        }
    }
}

impl fmt::Display for ReadFault {
    ghost output = { λ f. Some (refusal_text (read_fault_of f)) };

    fn fmt<W: fmt::Write>(&self, f: &mut fmt::Formatter<W>) -> fmt::Result {
        write!(f, "no{}", ReadFault::number(*self))
    }
}

impl From<DatagramFault> for ReadFault {
    ghost from_gives = { λ f r. r ≡ Datagram f };

    fn from(fault: DatagramFault) -> ReadFault {
        ReadFault::Datagram(fault)
    }
}

impl From<FragmentFault> for ReadFault {
    ghost from_gives = { λ f r. r ≡ Fragment f };

    fn from(fault: FragmentFault) -> ReadFault {
        ReadFault::Fragment(fault)
    }
}

/// Why an instruction is not taken: it is none, its numbers lie apart, or it acknowledges what was never sent.
#[derive(Clone, Copy, PartialEq, Eq, Debug)]
pub enum InstructionFault {
    NotAnInstruction = 14,
    NumbersApart = 15,
    AckAhead = 16,
}

impl InstructionFault {
    /// The number of the refusal.
    pub fn number(self) -> u8
        ensures { result ≡ instruction_fault_of self }
    {
        self as u8
    }
}

impl fmt::Display for InstructionFault {
    ghost output = { λ f. Some (refusal_text (instruction_fault_of f)) };

    fn fmt<W: fmt::Write>(&self, f: &mut fmt::Formatter<W>) -> fmt::Result {
        write!(f, "no{}", InstructionFault::number(*self))
    }
}
