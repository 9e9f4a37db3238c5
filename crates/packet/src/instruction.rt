//! An instruction: what brings the other end from one state to a later one.
ghost use Rattle.std.specs.Prelude.{◌≡◌, ◌+◌, ◌≤◌, true, false, length, take, IfOk, Ok, Err, MatchOption, MatchResult};
ghost use Rattle.packet.specs.Instructions.{update_of, together, instruction_bytes, headed, fields_of, read_instruction, write_answer, written_instruction};
ghost use Rattle.packet.specs.Writes.{rest, Adds};

use crate::bytes::Writer;
use crate::refusal::{InstructionFault, SendRefusal};

/// The diff from the state `old` to the state `new`, the number acknowledged, and the number below which no state is needed.
#[derive(Clone, Copy, PartialEq, Eq, Debug)]
pub struct Instruction<'a> {
    pub old: u32,
    pub new: u32,
    pub ack: u32,
    pub throwaway: u32,
    pub diff: &'a [u8],
}

/// The first byte of an instruction.
const VERSION: u8 = 2;

/// The longest diff that is sent.
const LONGEST_DIFF: usize = 2031;

impl<'a> Instruction<'a> {
    /// Reads an instruction, whose diff stays where it lies.
    pub fn read(bytes: &'a [u8]) -> Result<Instruction<'a>, InstructionFault>
        ensures { MatchResult result (λ i. read_instruction bytes.now ≡ Ok (update_of i)) (λ f. read_instruction bytes.now ≡ Err f) }
    {
        let instruction = Instruction::fields(bytes).ok_or(InstructionFault::NotAnInstruction)?;
        if !instruction.together() {
            return Err(InstructionFault::NumbersApart);
        }
        Ok(instruction)
    }

    /// The four numbers and the diff, behind the version.
    fn fields(bytes: &'a [u8]) -> Option<Instruction<'a>>
        ensures { MatchOption result (headed bytes.now ≡ false) (λ i. (headed bytes.now ≡ true) × (update_of i ≡ fields_of bytes.now)) }
    {
        let (version, rest) = bytes.split_first()?;
        let (old, rest) = rest.split_first_chunk::<4>()?;
        let (new, rest) = rest.split_first_chunk::<4>()?;
        let (ack, rest) = rest.split_first_chunk::<4>()?;
        let (throwaway, diff) = rest.split_first_chunk::<4>()?;
        if *version != VERSION {
            return None;
        }
        Some(Instruction {
            old: u32::from_be_bytes(*old),
            new: u32::from_be_bytes(*new),
            ack: u32::from_be_bytes(*ack),
            throwaway: u32::from_be_bytes(*throwaway),
            diff,
        })
    }

    /// Whether the numbers stand in order, the last at most 15 above the first.
    fn together(&self) -> bool
        ensures { result ≡ together (update_of self.entry.now) }
    {
        self.throwaway <= self.old && self.old <= self.new && self.new - self.throwaway <= 15
    }

    /// Writes the instruction at the front of `out`, and gives its length.
    pub fn write(&self, out: &mut [u8; 2048]) -> Result<usize, SendRefusal>
        ensures answer { result ≡ write_answer (update_of self.entry.now) }
        ensures bytes { out.new ≡ written_instruction (update_of self.entry.now) out.old }
        ensures front { IfOk result (λ n. take n out.new ≡ instruction_bytes (update_of self.entry.now)) }
    {
        if self.diff.len() > LONGEST_DIFF {
            return Err(SendRefusal::LongDiff);
        }
        let mut writer = Writer::new(out);
        self.lay(&mut writer);
        Ok(writer.written())
    }

    /// Writes the version, the numbers and the diff.
    fn lay(&self, writer: &mut Writer<'_>)
        requires { 17 + length self.now.diff.now ≤ length (rest writer.old) }
        ensures { Adds writer.old (instruction_bytes (update_of self.entry.now)) writer.new }
    {
        writer.put(&[VERSION]);
        writer.put(&self.old.to_be_bytes());
        writer.put(&self.new.to_be_bytes());
        writer.put(&self.ack.to_be_bytes());
        writer.put(&self.throwaway.to_be_bytes());
        writer.put(self.diff);
    }
}
