//! The marks of a half-made instruction: which fragments are there, and which is the last.
ghost use Rattle.std.specs.Prelude.{◌≡◌, ◌/◌, ◌^◌, ◌<◌, true, false, None, nat_lt};
ghost use Rattle.packet.specs.Pieces.{piece_of};
ghost use Rattle.assembler.specs.Offers.{repeats, contradicts};
ghost use Rattle.assembler.specs.Marks.{with_mark, last_with, full_length, placed, past_last};
ghost use Rattle.assembler.specs.Reading.{bit_at, is_last, size_of, in_buffer, marked, ended};

use crate::half::Last;
use crate::placing;
use crate::sound::Sound;
use packet::fragment::Fragment;

/// Bit k of `held` is for fragment k.
#[derive(Clone, Copy)]
pub(crate) struct Marks {
    held: u8,
    last: Option<Last>,
    ghost in_order: { ended held last ≡ true },
}

impl Marks {
    /// The marks where nothing is there.
    pub(crate) fn none() -> Marks
        ensures { (result.held ≡ 0) × (result.last ≡ None) }
    {
        Marks {
            held: 0,
            last: None,
        }
    }

    /// Puts the contents of a fragment at its place in the buffer, and gives the marks with its own.
    pub(crate) fn with(self, buf: &mut [u8; 2048], piece: Sound<'_>) -> Marks
        requires { contradicts (marked self.held self.last buf.old) (piece_of piece.fragment) ≡ false }
        ensures held { result.held ≡ with_mark self.held piece.entry.fragment.number }
        ensures last { result.last ≡ last_with self.last (piece_of piece.entry.fragment) }
        ensures bytes { buf.new ≡ placed buf.old (piece_of piece.entry.fragment) }
    {
        placing::place(buf, piece);
        Marks {
            held: self.held | (1u8 << piece.number()),
            last: self.last_with(piece.fragment),
        }
    }

    /// The last fragment, once this one is there.
    fn last_with(self, fragment: Fragment<'_>) -> Option<Last>
        ensures { result ≡ last_with self.last (piece_of fragment.entry) }
    {
        if fragment.last {
            Some(Last {
                number: fragment.number,
                length: fragment.contents.len(),
            })
        } else {
            self.last
        }
    }

    /// The length of the instruction, if all its fragments are there.
    pub(crate) fn full_length(self) -> Option<usize>
        ensures { result ≡ full_length self.held self.last }
    {
        match self.last {
            Some(end) if self.held == u8::MAX >> (7 - end.number) => Some(
                256 * usize::from(end.number) + end.length,
            ),
            _ => None,
        }
    }

    /// Whether a fragment contradicts one that is held of its sending.
    // Stays: this reads the buffer and `with` writes it, so a struct of buffer and fragment would be two, one with `&` and one with `&mut`.
    pub(crate) fn contradicts(self, buf: &[u8; 2048], piece: Sound<'_>) -> bool
        ensures { result ≡ contradicts (marked self.held self.last buf.now) (piece_of piece.entry.fragment) }
    {
        let fragment = piece.fragment;
        if self.has(piece) {
            !self.repeats(buf, piece)
        } else {
            self.past_last(fragment) || (fragment.last && self.has_above(piece))
        }
    }

    /// Whether a fragment says what is held under its number.
    fn repeats(self, buf: &[u8; 2048], piece: Sound<'_>) -> bool
        ensures { result ≡ repeats (in_buffer self.last buf.now piece.entry.fragment.number) (piece_of piece.entry.fragment) }
    {
        let fragment = piece.fragment;
        self.is_last(fragment.number) == fragment.last
            && self.bytes(buf, piece.number()) == fragment.contents
    }

    /// The bytes that are held under a number.
    fn bytes(self, buf: &[u8; 2048], number: u8) -> &[u8]
        requires { number < 8 }
        ensures { result.now ≡ (in_buffer self.last buf.now number).bytes }
    {
        let from = 256 * usize::from(number);
        &buf[from..from + self.size_of(number)]
    }

    /// Whether a fragment that isn't there yet goes against the last one: it is another last one, or it lies above.
    fn past_last(self, fragment: Fragment<'_>) -> bool
        ensures { result ≡ past_last self.last (piece_of fragment.entry) }
    {
        self.last
            .is_some_and(|end| fragment.last || fragment.number > end.number)
    }

    /// Whether the fragment is there.
    fn has(self, piece: Sound<'_>) -> bool
        ensures { result ≡ bit_at self.held piece.entry.fragment.number }
    {
        (self.held >> piece.number()) % 2 == 1
    }

    /// Whether a fragment above it is there.
    fn has_above(self, piece: Sound<'_>) -> bool
        ensures { result ≡ nat_lt 1 (self.held / 2 ^ piece.entry.fragment.number) }
    {
        self.held >> piece.number() > 1
    }

    /// How many bytes the fragment has, if it is there.
    fn size_of(self, number: u8) -> usize
        ensures { result ≡ size_of self.last number }
    {
        match self.last {
            Some(end) if end.number == number => end.length,
            _ => 256,
        }
    }

    /// Whether the fragment is the last, if it is there.
    fn is_last(self, number: u8) -> bool
        ensures { result ≡ is_last self.last number }
    {
        self.last.is_some_and(|end| end.number == number)
    }
}
