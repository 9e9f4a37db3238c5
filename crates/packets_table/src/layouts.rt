//! Rows of bytes that are read as a datagram or as an instruction.
use packet::datagram::{Datagram, Direction};
use packet::fragment::Fragment;
use packet::instruction::Instruction;
use std::alloc::Global;
use std::io;

// Stays: the words are this table's own, and an impl of `FromStr` would be for `packet` to make.
fn direction(word: &str) -> Option<Direction> {
    match word {
        "toward-depot" => Some(Direction::TowardDepot),
        "toward-reader" => Some(Direction::TowardReader),
        _ => None,
    }
}

fn show_datagram(rt: &impl Print, datagram: Datagram<'_>) -> io::Result<()> {
    let Datagram {
        number,
        fragment,
        ..
    } = datagram;
    let Fragment {
        sending,
        number: k,
        last,
        contents,
    } = fragment;
    let mark = if last { "last" } else { "not last" };
    let length = contents.len();
    println!(rt; " number {number}, sending {sending}, fragment {k}, {mark}, {length} bytes")
}

/// Reads a datagram for an end that sends in the direction given.
pub(crate) fn datagram(rt: &impl Print, heap: Global, text: &str) -> io::Result<()> {
    let (word, rest) = text.split_once(' ').unwrap_or((text, ""));
    let Some(sends) = direction(word) else {
        return println!(rt; " no such direction");
    };
    let bytes = hexadecimal::bytes(heap, rest)?;
    match Datagram::read(bytes.as_slice(), sends) {
        Ok(datagram) => show_datagram(rt, datagram),
        Err(fault) => println!(rt; " {fault}"),
    }
}

/// Reads an instruction.
pub(crate) fn instruction(rt: &impl Print, heap: Global, text: &str) -> io::Result<()> {
    let bytes = hexadecimal::bytes(heap, text)?;
    match Instruction::read(bytes.as_slice()) {
        Ok(instruction) => {
            let Instruction {
                old,
                new,
                ack,
                throwaway,
                diff,
            } = instruction;
            let length = diff.len();
            println!(rt; " old {old}, new {new}, ack {ack}, throwaway {throwaway}, {length} bytes")
        }
        Err(fault) => println!(rt; " {fault}"),
    }
}
