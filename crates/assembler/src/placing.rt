//! Bytes put into a part of a buffer.
ghost use Rattle.std.specs.Prelude.{◌≡◌, ◌≤◌, ◌++◌, length, take, drop};
ghost use Rattle.packet.specs.Pieces.{piece_of};
ghost use Rattle.assembler.specs.Marks.{placed};

use crate::sound::Sound;

/// Copies `src` to the front of `dest`, and leaves the rest.
// Stays: that the part of the buffer from the fragment's place on is lent on to a function that copies is a rule of the project.
fn copy_front(dest: &mut [u8], src: &[u8])
    requires { length src.now ≤ length dest.old }
    ensures { dest.new ≡ src.now ++ drop (length src.now) dest.old }
{
    dest[..src.len()].copy_from_slice(src);
}

/// Puts the contents of fragment k at byte 256 × k of the instruction.
pub(crate) fn place(buf: &mut [u8; 2048], piece: Sound<'_>)
    ensures { buf.new ≡ placed buf.old (piece_of piece.entry.fragment) }
{
    let k = usize::from(piece.number());
    copy_front(&mut buf[256 * k..], piece.fragment.contents);
}

/// The first `length` bytes, or all where there are no more.
pub(crate) fn front(buf: &[u8; 2048], length: usize) -> &[u8]
    ensures { result.now ≡ take length buf.now }
{
    // Stays: a range is the plain form; the length comes from an offer's answer, and the buffer is an array since nothing here is on a heap.
    &buf[..length.min(2048)]
}
