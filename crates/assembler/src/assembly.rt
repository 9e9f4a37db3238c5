//! An assembler of one instruction.
ghost use Rattle.std.specs.Prelude.{◌≡◌, true, false, Some, take, replicate};
ghost use Rattle.packet.specs.Pieces.{piece_of};
ghost use Rattle.assembler.specs.Assembling.{Assembles};
ghost use Rattle.assembler.specs.Contents.{nothing, collects};
ghost use Rattle.assembler.specs.Holding.{holding};
ghost use Rattle.assembler.specs.Offers.{contradicts};
ghost use Rattle.assembler.specs.Reading.{marked};
ghost use Rattle.assembler.specs.Taking.{Answered, Taken};

use crate::half::{Collecting, Half};
use crate::marks::Marks;
use crate::offer::Offer;
use crate::placing;
use crate::sound::Sound;
use packet::fragment::Fragment;
use packet::refusal::FragmentFault;

/// Fragments of one sending, each at its place in the buffer, until none is missing.
#[derive(Drop)]
pub struct Assembler {
    state: Half,
    buf: [u8; 2048],
}

impl Assembler {
    /// An assembler that holds nothing.
    pub fn new() -> Assembler
        ensures { (holding result.state result.buf ≡ nothing) × (result.buf ≡ replicate 2048 0) }
    {
        Assembler {
            state: None,
            buf: [0; 2048],
        }
    }

    /// Takes a fragment: a refusal leaves the assembler as it was, and a fragment that makes the instruction whole leaves what is held.
    pub fn offer(&mut self, fragment: Fragment<'_>) -> Result<Offer, FragmentFault>
        ensures { Taken self.old.state self.old.buf (piece_of fragment.entry) self.new.state self.new.buf result }
    {
        match (self.state, Sound::try_from(fragment)) {
            (_, Err(fault)) => Err(fault),
            (Some(c), Ok(f)) if c.sending != f.fragment.sending => Ok(self.begin(f)),
            (Some(c), Ok(f)) if c.marks.contradicts(&self.buf, f) => {
                Err(FragmentFault::Contradiction)
            }
            (Some(c), Ok(f)) => Ok(self.add(c, f)),
            (None, Ok(f)) => Ok(self.begin(f)),
        }
    }

    /// Adds a fragment of the sending that is collected, which contradicts none that is held.
    fn add(&mut self, c: Collecting, piece: Sound<'_>) -> Offer
        requires state { self.old.state ≡ Some c }
        requires own { c.sending ≡ piece.fragment.sending }
        requires agrees { contradicts (marked c.marks.held c.marks.last self.old.buf) (piece_of piece.fragment) ≡ false }
        ensures { Answered self.old.state self.old.buf (piece_of piece.entry.fragment) self.new.state self.new.buf result }
    {
        let marks = c.marks.with(&mut self.buf, piece);
        match marks.full_length() {
            Some(length) => Offer::Whole { length },
            None => {
                self.state = Some(Collecting { marks, ..c });
                Offer::Part
            }
        }
    }

    /// Begins with a fragment of a sending of which nothing is held.
    fn begin(&mut self, piece: Sound<'_>) -> Offer
        requires { collects (holding self.old.state self.old.buf) piece.fragment.sending ≡ false }
        ensures { Answered self.old.state self.old.buf (piece_of piece.entry.fragment) self.new.state self.new.buf result }
    {
        let fragment = piece.fragment;
        if fragment.number == 0 && fragment.last {
            return Offer::Alone;
        }
        self.state = Some(Collecting {
            sending: fragment.sending,
            marks: Marks::none().with(&mut self.buf, piece),
        });
        Offer::Part
    }

    /// The first `length` bytes of the buffer, or all of it.
    // Stays: bytes that `offer` lent would come from a `&mut`, and lock the assembler for readers too; these are lent shared, when they are wanted.
    pub fn bytes(&self, length: usize) -> &[u8]
        ensures { result.now ≡ take length self.now.buf }
    {
        placing::front(&self.buf, length)
    }

    /// Drops what is held.
    pub fn clear(&mut self)
        ensures { (holding self.new.state self.new.buf ≡ nothing) × (self.new.buf ≡ self.old.buf) }
    {
        self.state = None;
    }
}

/// An instruction's fragments make it whole again, in whatever order and however often they come.
pub fn assembly_stands()
    ensures { Assembles }
{}
