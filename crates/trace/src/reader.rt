//! The lines of a trace, read.
ghost use Rattle.std.specs.Prelude.{◌≡◌, Decides};
ghost use Rattle.trace.specs.Format.{names_line, Reads, Short};
ghost use Rattle.trace.specs.Reading.{event_of, line_of, six_of};

use crate::cursor::Cursor;
use crate::line::{End, Event, Line, TraceFault};

/// The most bytes that a line may have.
const LONGEST_LINE: usize = 80;

/// The event of a letter, which alone settles the values that have to be 0.
// Stays: no conversion trait takes a letter with three values beside it, and the match on characters is a rule of the project.
fn event_of(letter: u8, a: u32, b: u32, c: u32) -> Option<Event>
    ensures { result ≡ event_of letter a b c }
{
    match char::from(letter) {
        'K' if b == 0 && c == 0 => Some(Event::Key { key: a }),
        'T' => Some(Event::Tap {
            card: a,
            fare: b,
            balance: c,
        }),
        'P' if c == 0 => Some(Event::Position {
            position: a,
            character: b,
        }),
        'I' if a == 0 && b == 0 && c == 0 => Some(Event::Tick),
        'G' if b == 0 && c == 0 => Some(Event::Take { datagram: a }),
        _ => None,
    }
}

/// The six values of a text, from its front to its end.
fn six_of(text: &[u8]) -> Option<Line>
    ensures { result ≡ six_of text.now }
{
    let mut cursor = Cursor { rest: text };
    let at = cursor.number()?;
    let end = cursor.letter()?;
    let event = cursor.letter()?;
    let a = cursor.value()?;
    let b = cursor.value()?;
    let c = cursor.value()?;
    if !cursor.rest.is_empty() {
        return None;
    }
    let end = End::try_from(end).ok()?;
    let event = event_of(event, a, b, c)?;
    Some(Line { at, end, event })
}

/// The line that a text is. The format has a limit, so it stands here; it never decides alone, as `limit_stands` says.
fn line_of(text: &[u8]) -> Option<Line>
    ensures { result ≡ line_of text.now }
{
    if text.len() > LONGEST_LINE {
        return None;
    }
    six_of(text)
}

/// Whether a line is the one that a trace begins with.
pub fn is_names_line(text: &[u8]) -> bool
    ensures { Decides result (text.now ≡ names_line) }
{
    text == b"at end event a b c".as_slice()
}

/// Reads a value line, given without the 0A that ends it.
pub fn read_line(text: &[u8]) -> Result<Line, TraceFault>
    ensures { Reads text.now result }
{
    line_of(text).ok_or(TraceFault::Malformed)
}

/// That the limit never decides alone: six values take at most 47 bytes.
pub fn limit_stands()
    ensures { Short }
{}
