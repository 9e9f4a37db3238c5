//! A value line of a trace: what happens at one of the two ends, and when.
ghost use Rattle.std.specs.Prelude.{◌≡◌, MatchResult, None, Some};
ghost use Rattle.trace.specs.Reading.{end_of};
ghost use Rattle.trace.specs.Refusals.{refusal_number};
ghost use Rattle.trace.specs.Words.{end_word, event_words, line_words, fault_word};

use std::fmt;

/// The end of the session at which an event happens.
#[derive(Clone, Copy, PartialEq, Eq, Debug)]
pub enum End {
    Reader,
    Depot,
}

impl TryFrom<u8> for End {
    type Error = TraceFault;

    ghost try_from_gives = { λ letter result. MatchResult result (λ end. end_of letter ≡ Some end) (λ _. end_of letter ≡ None) };

    /// The end of a letter.
    fn try_from(letter: u8) -> Result<End, TraceFault> {
        match char::from(letter) {
            'R' => Ok(End::Reader),
            'D' => Ok(End::Depot),
            _ => Err(TraceFault::Malformed),
        }
    }
}

impl fmt::Display for End {
    ghost output = { λ end. Some (end_word end) };

    fn fmt<W: fmt::Write>(&self, f: &mut fmt::Formatter<W>) -> fmt::Result {
        match self {
            End::Reader => f.write_str("reader"),
            End::Depot => f.write_str("depot"),
        }
    }
}

/// What happens there, with the values as written: none is held to its field yet.
#[derive(Clone, Copy, PartialEq, Eq, Debug)]
pub enum Event {
    Key { key: u32 },
    Tap { card: u32, fare: u32, balance: u32 },
    Position { position: u32, character: u32 },
    Tick,
    Take { datagram: u32 },
}

impl fmt::Display for Event {
    ghost output = { λ event. Some (event_words event) };

    fn fmt<W: fmt::Write>(&self, f: &mut fmt::Formatter<W>) -> fmt::Result {
        match self {
            Event::Key { key } => write!(f, "key {key}"),
            Event::Tap {
                card,
                fare,
                balance,
            } => write!(f, "tap of card {card} fare {fare} balance {balance}"),
            Event::Position {
                position,
                character,
            } => write!(f, "position {position} character {character}"),
            Event::Tick => f.write_str("tick"),
            Event::Take { datagram } => write!(f, "take {datagram}"),
        }
    }
}

/// An event, with the time and the end that it happens at.
#[derive(Clone, Copy, PartialEq, Eq, Debug)]
pub struct Line {
    pub at: u32,
    pub end: End,
    pub event: Event,
}

impl fmt::Display for Line {
    ghost output = { λ line. Some (line_words line) };

    fn fmt<W: fmt::Write>(&self, f: &mut fmt::Formatter<W>) -> fmt::Result {
        let Line { at, end, event } = self;
        write!(f, "at {at} {end} {event}")
    }
}

/// Why a line of a trace is refused.
#[derive(Clone, Copy, PartialEq, Eq, Debug)]
pub enum TraceFault {
    Malformed = 1,
}

impl TraceFault {
    // Stays: `as u8` works on an enum and not on a type parameter, so each enum has its own.
    /// The number of the refusal.
    pub fn number(&self) -> u8
        ensures { result ≡ refusal_number self.now }
    {
        *self as u8
    }
}

// Stays: one impl for every refusal under a trait of ours would overlap others, and a macro that wrote the impls could not state their output.
impl fmt::Display for TraceFault {
    ghost output = { λ fault. Some (fault_word fault) };

    fn fmt<W: fmt::Write>(&self, f: &mut fmt::Formatter<W>) -> fmt::Result {
        write!(f, "no{}", self.number())
    }
}
