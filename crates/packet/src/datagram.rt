//! A datagram: one fragment on its way toward the reader or the depot.
ghost use Rattle.std.specs.Prelude.{◌≡◌, ◌+◌, ◌<◌, ◌≤◌, length, drop, Ok, Err, MatchResult};
ghost use Rattle.packet.specs.Datagrams.{top_bit, top_of, direction_of, parcel_of, datagram_bytes, read_datagram};
ghost use Rattle.packet.specs.Eight.{of_eight};
ghost use Rattle.packet.specs.Writes.{rest, Adds};

use crate::bytes::Writer;
use crate::fragment::Fragment;
use crate::refusal::{DatagramFault, ReadFault};

/// The way that a datagram goes.
#[derive(Clone, Copy, PartialEq, Eq, Debug)]
pub enum Direction {
    TowardDepot,
    TowardReader,
}

/// The bit of the first eight bytes that is set toward the reader; the number is below it.
pub(crate) const TOP: u64 = 0x8000_0000_0000_0000;

/// The length of the shortest datagram.
const SHORTEST: usize = 22;

/// The length of the longest datagram, which each of a sending is but the last.
pub const LONGEST: usize = 278;

/// The four bytes between the datagram's number and its fragment, which no rule reads.
const UNREAD: [u8; 4] = [0xFF; 4];

impl Direction {
    /// The direction that the first eight bytes carry.
    // Stays: a `From<u64>` would offer to everyone, for every number, what is meant of a datagram's first eight bytes alone.
    fn of(word: u64) -> Direction
        ensures { result ≡ direction_of word }
    {
        if word >= TOP {
            Direction::TowardReader
        } else {
            Direction::TowardDepot
        }
    }

    /// Its top bit.
    fn top(self) -> u64
        ensures { result ≡ top_of self }
    {
        match self {
            Direction::TowardDepot => 0,
            Direction::TowardReader => TOP,
        }
    }
}

/// A fragment with the direction in which it goes and the datagram's number.
#[derive(Clone, Copy, PartialEq, Eq, Debug)]
pub struct Datagram<'a> {
    pub direction: Direction,
    pub number: u64,
    pub fragment: Fragment<'a>,
}

impl<'a> Datagram<'a> {
    /// Reads a datagram for an end that itself sends in the direction `sends`.
    pub fn read(bytes: &'a [u8], sends: Direction) -> Result<Datagram<'a>, ReadFault>
        ensures { MatchResult result (λ d. read_datagram sends bytes.now ≡ Ok (parcel_of d)) (λ f. read_datagram sends bytes.now ≡ Err f) }
    {
        if !(SHORTEST..=LONGEST).contains(&bytes.len()) {
            return Err(DatagramFault::WrongLength.into());
        }
        let (word, fragment) = Datagram::parts(bytes);
        let direction = Direction::of(word);
        if direction == sends {
            return Err(DatagramFault::OwnDirection.into());
        }
        Ok(Datagram {
            direction,
            number: word % TOP,
            fragment: Fragment::read(fragment)?,
        })
    }

    /// The number that the first eight bytes write, and what lies behind the unread bytes.
    fn parts(bytes: &'a [u8]) -> (u64, &'a [u8])
        requires { 12 ≤ length bytes.now }
        ensures { (result.0 ≡ of_eight bytes.now 0) × (result.1.now ≡ drop 12 bytes.now) }
    {
        let (word, rest) = bytes.split_first_chunk::<8>().unwrap();
        (u64::from_be_bytes(*word), &rest[UNREAD.len()..])
    }

    /// Writes the datagram.
    pub(crate) fn write(&self, writer: &mut Writer<'_>)
        requires { (self.now.number < top_bit) × (22 + length self.now.fragment.contents.now ≤ length (rest writer.old)) }
        ensures { Adds writer.old (datagram_bytes (parcel_of self.now)) writer.new }
    {
        let word = self.direction.top() + self.number;
        writer.put(&word.to_be_bytes());
        writer.put(&UNREAD);
        self.fragment.write(writer);
    }
}
