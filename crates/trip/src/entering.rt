//! What the lines of a trace make of a journal and a screen.
ghost use Rattle.std.specs.Prelude.{◌≡◌};
ghost use Rattle.trip.specs.declared.entering.Refusal.TheVariants.{Edit};
ghost use Rattle.trip.specs.Trips.{refusal_number, is_own, Entered};

use journal::journal::Journal;
use screen::screen::Screen;
use state::fault::EditRefusal;
use state::state::State;
use std::fmt;
use trace::line::{End, Event, Line};

/// What the two ends share.
#[derive(Clone, Copy)]
pub(crate) struct Trip {
    pub(crate) journal: Journal,
    pub(crate) screen: Screen,
}

/// Why a line is not taken in.
#[derive(Clone, Copy, PartialEq, Eq, Debug)]
pub(crate) enum Refusal {
    WrongEnd,
    LateTime,
    Edit(EditRefusal),
}

impl Refusal {
    /// The number of the refusal.
    pub(crate) fn number(self) -> u8
        ensures { result ≡ refusal_number self }
    {
        match self {
            Refusal::WrongEnd => 2,
            Refusal::LateTime => 4,
            Refusal::Edit(refusal) => refusal.number(),
        }
    }
}

impl From<EditRefusal> for Refusal {
    ghost from_gives = { λ f r. r ≡ Edit f };

    fn from(refusal: EditRefusal) -> Refusal {
        Refusal::Edit(refusal)
    }
}

impl fmt::Display for Refusal {
    fn fmt<W: fmt::Write>(&self, f: &mut fmt::Formatter<W>) -> fmt::Result {
        let why = match self {
            Refusal::WrongEnd => "not an event of this end",
            Refusal::LateTime => "a time above 4000000000",
            Refusal::Edit(_) => "a value outside its field, or the journal is full",
        };
        write!(f, "{why}: no{}", self.number())
    }
}

impl Trip {
    /// A trip with nothing in it.
    pub(crate) fn start() -> Trip {
        Trip {
            journal: <Journal as State>::start(),
            screen: <Screen as State>::start(),
        }
    }
}

/// Whether an event is one of this end's: keys and taps are the reader's, positions the depot's.
fn belongs(end: End, event: Event) -> bool
    ensures { result ≡ is_own end event }
{
    !matches!(
        (end, event),
        (End::Depot, Event::Key { .. } | Event::Tap { .. }) | (End::Reader, Event::Position { .. })
    )
}

/// The trip with an event taken into its journal or onto its screen; ticks and takes are passed over.
pub(crate) fn entered(trip: &Trip, line: Line) -> Result<Trip, Refusal>
    ensures { Entered trip.now line result }
{
    if !belongs(line.end, line.event) {
        return Err(Refusal::WrongEnd);
    }
    if line.at > 4_000_000_000 {
        return Err(Refusal::LateTime);
    }
    match line.event {
        Event::Key { key } => Ok(Trip {
            journal: trip.journal.with_key(key)?,
            ..*trip
        }),
        Event::Tap {
            card,
            fare,
            balance,
        } => Ok(Trip {
            journal: trip.journal.with_tap(card, fare, balance)?,
            ..*trip
        }),
        Event::Position {
            position,
            character,
        } => Ok(Trip {
            screen: trip.screen.with_character(position, character)?,
            ..*trip
        }),
        Event::Tick | Event::Take { .. } => Ok(*trip),
    }
}
