//! The listing of a replay: a line of names, and a line for each value line of the trace.
ghost use Rattle.std.specs.Prelude.{◌≡◌, Some, string_bytes};
ghost use Rattle.trace.specs.Listing.{Appended, listing_line, listing_names, listing_values, outcome_word};

use std::alloc::{AllocError, Global};
use std::fmt;
use std::fmt::Write;

/// What came of a line.
#[derive(Clone, Copy, PartialEq, Eq, Debug)]
pub enum Outcome {
    Done,
    Sent,
    Idle,
    Shown,
    Filled,
    Again,
    Baseless,
    Part,
    // Stays: `trace` sees none of the crates whose refusals are listed, and writes whichever number it is given; a narrower type would ask more of its callers.
    Refused(u8),
}

impl fmt::Display for Outcome {
    ghost output = { λ o. Some (outcome_word o) };

    fn fmt<W: fmt::Write>(&self, f: &mut fmt::Formatter<W>) -> fmt::Result {
        match self {
            Outcome::Done => f.write_str("ok"),
            Outcome::Sent => f.write_str("sent"),
            Outcome::Idle => f.write_str("idle"),
            Outcome::Shown => f.write_str("shown"),
            Outcome::Filled => f.write_str("filled"),
            Outcome::Again => f.write_str("again"),
            Outcome::Baseless => f.write_str("baseless"),
            Outcome::Part => f.write_str("part"),
            Outcome::Refused(number) => write!(f, "no{number}"),
        }
    }
}

/// The values of a line, `shown` being the newest number and `sum` the checksum of what is shown.
#[derive(Clone, Copy, PartialEq, Eq, Debug)]
pub struct ListingLine {
    pub line: u64,
    pub result: Outcome,
    pub n: u32,
    pub shown: u32,
    pub sum: u16,
}

impl fmt::Display for ListingLine {
    ghost output = { λ line. Some (listing_values line) };

    fn fmt<W: fmt::Write>(&self, f: &mut fmt::Formatter<W>) -> fmt::Result {
        let ListingLine {
            line,
            result,
            n,
            shown,
            sum,
        } = self;
        write!(f, "{line} {result} {n} {shown} {sum}")
    }
}

/// Appends the names to a listing, or leaves it where there is no memory.
pub fn push_names(listing: &mut String) -> Result<(), AllocError>
    ensures { Appended result (string_bytes listing.old) listing_names (string_bytes listing.new) }
{
    listing.push_str("line result n shown sum\n")
}

/// Appends a line to a listing, or leaves it where there is no memory.
pub fn push_line(listing: &mut String, heap: Global, line: ListingLine) -> Result<(), AllocError>
    ensures { Appended result (string_bytes listing.old) (listing_line line) (string_bytes listing.new) }
{
    let text = format!(in heap; "{line}\n")?;
    listing.push_str(text.as_str())
}
