//! A journal as a plain value.
use crate::entry::Entry;

/// How many entries a journal has room for.
pub(crate) const CAPACITY: usize = 64;

/// The first `count` of the entries; what lies beyond is ignored, and a count above 64 reads as the empty journal.
// Stays: no heap and no invariant in the type of a state, by a rule of the project: `reading` gives every value of these fields contents.
#[derive(Clone, Copy)]
pub struct Journal {
    pub(crate) entries: [Entry; CAPACITY],
    pub(crate) count: usize,
}
