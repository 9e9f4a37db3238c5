//! A fragment: a piece of one sending's instruction.
ghost use Rattle.std.specs.Prelude.{◌≡◌, ◌+◌, ◌≤◌, false, length, Ok, Err, MatchOption, MatchResult};
ghost use Rattle.packet.specs.Pieces.{piece_of};
ghost use Rattle.packet.specs.Fragments.{field_of, fragment_bytes, piece_in, sound, read_fragment};
ghost use Rattle.packet.specs.Writes.{rest, Adds};

use crate::bytes::Writer;
use crate::refusal::FragmentFault;

/// The piece `number` of the instruction of a sending; `last` marks the one at its end.
#[derive(Clone, Copy, PartialEq, Eq, Debug)]
pub struct Fragment<'a> {
    pub sending: u64,
    pub number: u8,
    pub last: bool,
    pub contents: &'a [u8],
}

/// The bit of the 16-bit field that marks the last fragment.
const LAST: u16 = 0x8000;

impl<'a> Fragment<'a> {
    /// Reads a fragment, whose contents stay where they lie.
    pub fn read(bytes: &'a [u8]) -> Result<Fragment<'a>, FragmentFault>
        ensures { MatchResult result (λ f. read_fragment bytes.now ≡ Ok (piece_of f)) (λ e. read_fragment bytes.now ≡ Err e) }
    {
        match Fragment::fields(bytes) {
            Some(fragment) if fragment.is_sound() => Ok(fragment),
            _ => Err(FragmentFault::Malformed),
        }
    }

    /// The fields and the contents, unless bytes are missing or the number is no `u8`.
    fn fields(bytes: &'a [u8]) -> Option<Fragment<'a>>
        ensures { MatchOption result (sound (piece_in bytes.now) ≡ false) (λ f. piece_of f ≡ piece_in bytes.now) }
    {
        let (sending, rest) = bytes.split_first_chunk::<8>()?;
        let (field, contents) = rest.split_first_chunk::<2>()?;
        let field = u16::from_be_bytes(*field);
        let Ok(number) = u8::try_from(field % LAST) else {
            return None;
        };
        Some(Fragment {
            sending: u64::from_be_bytes(*sending),
            number,
            last: field >= LAST,
            contents,
        })
    }

    /// Whether it can be the last piece of an instruction, or if it isn't marked so, an earlier one.
    pub fn is_sound(&self) -> bool
        ensures { result ≡ sound (piece_of self.now) }
    {
        if self.last {
            self.number <= 7 && (1..=256).contains(&self.contents.len())
        } else {
            self.number < 7 && self.contents.len() == 256
        }
    }

    /// Writes the fragment.
    pub(crate) fn write(&self, writer: &mut Writer<'_>)
        requires { 10 + length self.now.contents.now ≤ length (rest writer.old) }
        ensures { Adds writer.old (fragment_bytes (piece_of self.now)) writer.new }
    {
        writer.put(&self.sending.to_be_bytes());
        writer.put(&self.field().to_be_bytes());
        writer.put(self.contents);
    }

    /// The 16-bit field.
    fn field(&self) -> u16
        ensures { result ≡ field_of (piece_of self.now) }
    {
        let mark = if self.last { LAST } else { 0 };
        mark + u16::from(self.number)
    }
}
