//! A sending: an instruction cut into pieces, each in a datagram, all back to back.
ghost use Rattle.std.specs.Prelude.{◌≡◌, ◌*◌, ◌<◌, ◌≤◌, length, take, drop, IfOk};

use crate::bytes::Writer;
use crate::datagram::{Datagram, Direction, LONGEST, TOP};
use crate::fragment::Fragment;
use crate::instruction::Instruction;
use crate::refusal::SendRefusal;

/// How many datagrams were written, and how many bytes they have together.
// Stays: a slice lent back would keep the caller's buffer borrowed; the count and the length are told of it, by a rule of the project.
#[derive(Clone, Copy, PartialEq, Eq, Debug)]
pub struct Sent {
    pub count: usize,
    pub length: usize,
}

/// The length of a buffer that has room for any sending: eight datagrams of the greatest length.
pub const ROOM: usize = 8 * LONGEST;

/// The length of every piece but the last.
const PIECE: usize = 256;

impl Instruction<'_> {
    ghost use Rattle.packet.specs.Instructions.{update_of};
    ghost use Rattle.packet.specs.Sendings.{send_answer, sent_into};

    /// Writes the instruction's datagrams back to back at the front of `out`, numbered on from `first_datagram`.
    pub fn send(
        &self,
        direction: Direction,
        first_datagram: u64,
        sending: u64,
        out: &mut [u8],
    ) -> Result<Sent, SendRefusal>
        ensures answer { result ≡ send_answer direction first_datagram sending (update_of self.entry.now) out.old }
        ensures bytes { out.new ≡ sent_into direction first_datagram sending (update_of self.entry.now) out.old }
        ensures within { IfOk result (λ s. s.length ≤ length out.old) }
    {
        if out.len() < ROOM {
            return Err(SendRefusal::ShortBuffer);
        }
        let mut whole = [0; 2048];
        let length = self.write(&mut whole)?;
        let pieces = Pieces {
            // Stays: an array since nothing here is on a heap; `write` tells how much of it is the instruction.
            bytes: &whole[..length],
            direction,
            first_datagram,
            sending,
        };
        let mut writer = Writer::new(out);
        pieces.write(&mut writer);
        Ok(Sent {
            count: pieces.count(),
            length: writer.written(),
        })
    }
}

/// An instruction's bytes, to be cut into the pieces of a sending.
#[derive(Clone, Copy)]
struct Pieces<'a> {
    bytes: &'a [u8],
    direction: Direction,
    first_datagram: u64,
    sending: u64,
    ghost short: { length bytes.now ≤ 2048 },
}

impl<'a> Pieces<'a> {
    ghost use Rattle.packet.specs.Pieces.{piece_count};
    ghost use Rattle.packet.specs.Datagrams.{parcel_of};
    ghost use Rattle.packet.specs.Sendings.{parcel, sending_bytes};
    ghost use Rattle.packet.specs.Writes.{rest, Adds};

    /// How many there are.
    fn count(&self) -> usize
        ensures { result ≡ piece_count self.now.bytes.now }
    {
        self.bytes.len().div_ceil(PIECE)
    }

    /// Writes the datagram of each.
    fn write(&self, writer: &mut Writer<'_>)
        requires { 2224 ≤ length (rest writer.old) }
        ensures { Adds writer.old (sending_bytes self.now.direction self.now.first_datagram self.now.sending self.now.bytes.now) writer.new }
    {
        for (k, contents) in self.bytes.chunks(PIECE).enumerate() {
            self.datagram(k, contents).write(writer);
        }
    }

    /// The datagram of the piece `k`, with its contents.
    fn datagram(&self, k: usize, contents: &'a [u8]) -> Datagram<'a>
        requires number { k < piece_count self.now.bytes.now }
        requires contents { contents.now ≡ take 256 (drop (256 * k) self.now.bytes.now) }
        ensures { parcel_of result ≡ parcel self.now.direction self.now.first_datagram self.now.sending self.now.bytes.now k }
    {
        Datagram {
            direction: self.direction,
            number: (self.first_datagram % TOP + k as u64) % TOP,
            fragment: Fragment {
                sending: self.sending,
                number: k as u8,
                last: k + 1 == self.count(),
                contents,
            },
        }
    }
}
