//! Why the calls of an end refuse.
ghost use Rattle.std.specs.Prelude.{◌≡◌};
ghost use Rattle.protocol.specs.declared.fault.TakeFault.TheVariants.{Fragment, Instruction, State};
ghost use Rattle.protocol.specs.Stages.{read_stage};
ghost use Rattle.protocol.specs.Answers.{call_refusal_of, change_refusal_of, tick_refusal_of, take_fault_of};

use packet::refusal::{DatagramFault, FragmentFault, InstructionFault, ReadFault};
use state::fault::StateFault;

/// The call itself: its time is too late, or a store that it is lent has not 16 states.
#[derive(Clone, Copy, PartialEq, Eq, Debug)]
pub enum CallRefusal {
    LateTime = 4,
    WrongStore = 5,
}

impl CallRefusal {
    // Stays: `as u8` works on an enum and not on a type parameter, so each enum has its own.
    pub fn number(self) -> u8
        ensures { result ≡ call_refusal_of self }
    {
        self as u8
    }
}

/// Why a change is refused.
#[derive(Clone, Copy, PartialEq, Eq, Debug)]
pub enum ChangeRefusal {
    NotFollowing = 7,
}

impl ChangeRefusal {
    pub fn number(self) -> u8
        ensures { result ≡ change_refusal_of self }
    {
        self as u8
    }
}

/// Why a tick is refused; the call's own refusal is held whole.
#[derive(Clone, Copy, PartialEq, Eq, Debug)]
pub enum TickRefusal {
    Call(CallRefusal),
    ShortBuffer,
    NotFollowing,
    NoSendingsLeft,
    LongDiff,
}

impl TickRefusal {
    pub fn number(self) -> u8
        ensures { result ≡ tick_refusal_of self }
    {
        match self {
            TickRefusal::Call(refusal) => refusal.number(),
            TickRefusal::ShortBuffer => 5,
            TickRefusal::NotFollowing => 7,
            TickRefusal::NoSendingsLeft => 8,
            TickRefusal::LongDiff => 9,
        }
    }
}

/// Why a take is refused, by the stage that refuses; the state's fault is held whole.
#[derive(Clone, Copy, PartialEq, Eq, Debug)]
pub enum TakeFault {
    Call(CallRefusal),
    Datagram(DatagramFault),
    Fragment(FragmentFault),
    Instruction(InstructionFault),
    State(StateFault),
}

impl TakeFault {
    pub fn number(self) -> u8
        ensures { result ≡ take_fault_of self }
    {
        match self {
            TakeFault::Call(refusal) => refusal.number(),
            TakeFault::Datagram(fault) => fault.number(),
            TakeFault::Fragment(fault) => fault.number(),
            TakeFault::Instruction(fault) => fault.number(),
            TakeFault::State(_) => 17,
        }
    }
}

impl From<ReadFault> for TakeFault {
    ghost from_gives = { λ f r. r ≡ read_stage f };

    fn from(fault: ReadFault) -> TakeFault {
        match fault {
            ReadFault::Datagram(fault) => TakeFault::Datagram(fault),
            ReadFault::Fragment(fault) => TakeFault::Fragment(fault),
        }
    }
}

impl From<FragmentFault> for TakeFault {
    ghost from_gives = { λ f r. r ≡ Fragment f };

    fn from(fault: FragmentFault) -> TakeFault {
        TakeFault::Fragment(fault)
    }
}

impl From<InstructionFault> for TakeFault {
    ghost from_gives = { λ f r. r ≡ Instruction f };

    fn from(fault: InstructionFault) -> TakeFault {
        TakeFault::Instruction(fault)
    }
}

impl From<StateFault> for TakeFault {
    ghost from_gives = { λ f r. r ≡ State f };

    fn from(fault: StateFault) -> TakeFault {
        TakeFault::State(fault)
    }
}
