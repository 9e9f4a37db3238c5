//! What a fragment that isn't refused comes to.

/// More is missing; the first `length` bytes of the buffer are the instruction; or the fragment's own bytes are.
// Stays: an answer with a length is copied, kept and compared; bytes in its place would lock the assembler, which lends them shared when they are wanted.
#[derive(Clone, Copy, PartialEq, Eq, Debug)]
pub enum Offer {
    Part,
    Whole { length: usize },
    Alone,
}
