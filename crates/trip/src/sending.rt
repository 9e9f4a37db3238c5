//! A diff sent as datagrams, and put together again from them in another order.
use crate::report::print_bytes;
use assembler::assembly::Assembler;
use assembler::offer::Offer;
use packet::datagram::{Datagram, Direction, LONGEST};
use packet::fragment::Fragment;
use packet::instruction::Instruction;
use packet::sending::ROOM;
use std::io;

/// The direction in which the other end sends.
fn other(direction: Direction) -> Direction {
    match direction {
        Direction::TowardDepot => Direction::TowardReader,
        Direction::TowardReader => Direction::TowardDepot,
    }
}

/// A diff that is sent, and the name of its state.
#[derive(Clone, Copy)]
pub(crate) struct Sending<'a> {
    pub(crate) name: &'a str,
    pub(crate) diff: &'a [u8],
}

impl Sending<'_> {
    /// Says what an instruction put together again says.
    fn show_whole(self, rt: &impl Print, bytes: &[u8]) -> io::Result<()> {
        let Sending { name, diff } = self;
        match Instruction::read(bytes) {
            Ok(instruction) if instruction.diff == diff => println!(rt;
                "{name} assembled: the same diff"
            ),
            Ok(_) => println!(rt; "{name} assembled: another diff"),
            Err(fault) => println!(rt; "{name} assembled: {fault}"),
        }
    }

    /// Offers a fragment to the assembler, and says what it comes to.
    // Stays: `packets_table` has a match like it with words of its own, and no crate lies between the two programs.
    fn offer(
        self,
        rt: &impl Print,
        assembler: &mut Assembler,
        fragment: Fragment<'_>,
    ) -> io::Result<()> {
        let name = self.name;
        let number = fragment.number;
        match assembler.offer(fragment) {
            Ok(Offer::Part) => println!(rt; "{name} fragment {number}: part"),
            Ok(Offer::Whole { length }) => {
                println!(rt; "{name} fragment {number}: whole")?;
                self.show_whole(rt, assembler.bytes(length))?;
                assembler.clear();
                Ok(())
            }
            Ok(Offer::Alone) => {
                println!(rt; "{name} fragment {number}: whole")?;
                self.show_whole(rt, fragment.contents)
            }
            Err(fault) => println!(rt; "{name} fragment {number}: {fault}"),
        }
    }

    /// Takes the datagrams from the last to the first, as the other end reads them.
    fn assemble(self, rt: &impl Print, written: &[u8], reads: Direction) -> io::Result<()> {
        let name = self.name;
        let mut assembler = Assembler::new();
        for (k, bytes) in written.chunks(LONGEST).enumerate().rev() {
            match Datagram::read(bytes, reads) {
                Ok(datagram) => self.offer(rt, &mut assembler, datagram.fragment)?,
                Err(fault) => println!(rt; "{name} datagram {k}: {fault}")?,
            }
        }
        Ok(())
    }

    /// Sends the diff from state 0 to state 1 as the first sending, prints its datagrams, and assembles them again.
    pub(crate) fn show(self, rt: &impl Print, direction: Direction) -> io::Result<()> {
        let Sending { name, diff } = self;
        let instruction = Instruction {
            old: 0,
            new: 1,
            ack: 0,
            throwaway: 0,
            diff,
        };
        let mut out = [0u8; ROOM];
        let sent = match instruction.send(direction, 0, 1, &mut out) {
            Ok(sent) => sent,
            Err(refusal) => return println!(rt; "{name} sending: {refusal}"),
        };
        // Stays: an array since nothing here is on a heap; the sending tells how much of it was written.
        let written = &out[..sent.length];
        for (k, datagram) in written.chunks(LONGEST).enumerate() {
            let length = datagram.len();
            println!(rt; "{name} datagram {k}: {length} bytes")?;
            print_bytes(rt, datagram)?;
        }
        self.assemble(rt, written, other(direction))
    }
}
