//! Rows of an instruction that is sent, and whose datagrams are put together in another order.
use crate::offers::offer_to;
use assembler::assembly::Assembler;
use packet::datagram::{Datagram, Direction, LONGEST};
use packet::instruction::Instruction;
use packet::sending::ROOM;
use std::{array, io};

/// Byte i is i modulo 251.
fn pattern() -> [u8; 2048] {
    array::from_fn(|i| (i % 251) as u8)
}

/// The datagram `k` of those written back to back, if they reach so far.
// Stays: `chunks` has no empty one behind the last, which this table shows to be refused.
fn datagram(written: &[u8], k: u8) -> Option<&[u8]> {
    let rest = written.get(LONGEST * usize::from(k)..)?;
    Some(rest.get(..LONGEST).unwrap_or(rest))
}

/// Prints the length of an instruction's bytes, and whether they are read as what was sent.
fn show_whole(rt: &impl Print, sent: &Instruction<'_>, bytes: &[u8]) -> io::Result<()> {
    let length = bytes.len();
    let verdict = match Instruction::read(bytes) {
        Ok(read) if read == *sent => "as sent",
        _ => "unlike what was sent",
    };
    print!(rt; " whole of {length} {verdict};")
}

/// Takes a datagram of the instruction, and prints the answer.
fn take(
    rt: &impl Print,
    assembler: &mut Assembler,
    sent: &Instruction<'_>,
    bytes: &[u8],
) -> io::Result<()> {
    match Datagram::read(bytes, Direction::TowardReader) {
        Ok(datagram) => offer_to(
            rt,
            assembler,
            datagram.fragment,
            |whole| show_whole(rt, sent, whole),
        ),
        Err(fault) => print!(rt; " {fault};"),
    }
}

/// Takes the datagrams of a sending in the order of a row.
fn take_all(
    rt: &impl Print,
    sent: &Instruction<'_>,
    written: &[u8],
    order: &str,
) -> io::Result<()> {
    let mut assembler = Assembler::new();
    let numbers = order.split(' ').map_while(|word| word.parse::<u8>().ok());
    for k in numbers {
        match datagram(written, k) {
            Some(bytes) => take(rt, &mut assembler, sent, bytes)?,
            None => print!(rt; " none such;")?,
        }
    }
    println!(rt; "")
}

/// The instruction of `length` bytes, of which the diff has all but the head.
fn instruction(pattern: &[u8; 2048], length: usize) -> Option<Instruction<'_>> {
    Some(Instruction {
        old: 1,
        new: 2,
        ack: 3,
        throwaway: 1,
        diff: pattern.get(..length.checked_sub(17)?)?,
    })
}

/// Sends an instruction of the length given toward the depot, and takes its datagrams there in the order given.
pub(crate) fn assemble(rt: &impl Print, text: &str) -> io::Result<()> {
    let (word, order) = text.split_once(' ').unwrap_or((text, ""));
    let pattern = pattern();
    let length = word.parse::<usize>().ok();
    let Some(instruction) = length.and_then(|length| instruction(&pattern, length)) else {
        return println!(rt; " no such length");
    };
    let mut buffer = [0u8; ROOM];
    match instruction.send(Direction::TowardDepot, 9, 4, &mut buffer) {
        Ok(sent) => {
            let count = sent.count;
            print!(rt; " {count} datagrams;")?;
            // Stays: an array since nothing here is on a heap; the sending tells how much of it was written.
            take_all(rt, &instruction, &buffer[..sent.length], order)
        }
        Err(refusal) => println!(rt; " {refusal}"),
    }
}
