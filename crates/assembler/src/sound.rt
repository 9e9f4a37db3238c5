//! A fragment that keeps the rules of fragments.
ghost use Rattle.std.specs.Prelude.{◌≡◌, ◌<◌, true, false, MatchResult};
ghost use Rattle.packet.specs.declared.refusal.FragmentFault.TheVariants.{Malformed};
ghost use Rattle.packet.specs.Pieces.{piece_of};
ghost use Rattle.packet.specs.Fragments.{sound};

use packet::fragment::Fragment;
use packet::refusal::FragmentFault;

#[derive(Clone, Copy)]
pub(crate) struct Sound<'a> {
    pub(crate) fragment: Fragment<'a>,
    ghost kept: { sound (piece_of fragment) ≡ true },
}

impl<'a> TryFrom<Fragment<'a>> for Sound<'a> {
    type Error = FragmentFault;

    ghost try_from_gives = { λ f r. MatchResult r (λ s. s.fragment ≡ f) (λ e. (sound (piece_of f) ≡ false) × (e ≡ Malformed)) };

    fn try_from(fragment: Fragment<'a>) -> Result<Sound<'a>, FragmentFault> {
        if fragment.is_sound() {
            Ok(Sound { fragment })
        } else {
            Err(FragmentFault::Malformed)
        }
    }
}

impl Sound<'_> {
    /// Its number, of eight.
    pub(crate) fn number(self) -> u8
        ensures value { result ≡ self.entry.fragment.number }
        ensures bound { result < 8 }
    {
        self.fragment.number
    }
}
