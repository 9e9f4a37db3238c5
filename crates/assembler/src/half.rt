//! A half-made instruction, without its bytes.
use crate::marks::Marks;

/// The last fragment: its number, and how many bytes it has.
// Stays: the bytes lie in the assembler's buffer from the fragment's place on, and are read there.
#[derive(Clone, Copy)]
pub struct Last {
    pub number: u8,
    pub length: usize,
}

/// The sending whose fragments are collected, and their marks.
#[derive(Clone, Copy)]
pub struct Collecting {
    pub(crate) sending: u64,
    pub(crate) marks: Marks,
}

/// Nothing, or what is collected of a sending.
pub type Half = Option<Collecting>;
