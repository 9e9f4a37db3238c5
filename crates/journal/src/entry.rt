//! An entry of a journal, and its bytes.
ghost use Rattle.std.specs.Prelude.{◌≡◌, ◌≤◌, ◌++◌, length, drop, None, Some, MatchOption};
ghost use Rattle.journal.specs.Entries.{entry_bytes, entry_at};

/// A key that the driver pressed, or a tap of a card with its fare and the balance left, in cents.
#[derive(Clone, Copy, PartialEq, Eq, Debug)]
pub enum Entry {
    Key { code: u8 },
    Tap { card: u32, fare: u16, balance: u16 },
}

impl Entry {
    /// How many bytes an entry has.
    pub(crate) fn width(self) -> usize
        ensures { result ≡ length (entry_bytes self) }
    {
        match self {
            Entry::Key { .. } => 2,
            Entry::Tap { .. } => 9,
        }
    }

    /// The entry at the front of `bytes` and what lies behind it, if a whole one is there.
    pub(crate) fn read(bytes: &[u8]) -> Option<(Entry, &[u8])>
        ensures { MatchOption result (entry_at bytes.now ≡ None) (λ p. (entry_at bytes.now ≡ Some p.0) × (p.1.now ≡ drop (length (entry_bytes p.0)) bytes.now)) }
    {
        match bytes {
            [1, code, rest @ ..] => Some((Entry::Key { code: *code }, rest)),
            [2, c0, c1, c2, c3, f0, f1, b0, b1, rest @ ..] => {
                let card = u32::from_be_bytes([*c0, *c1, *c2, *c3]);
                let fare = u16::from_be_bytes([*f0, *f1]);
                let balance = u16::from_be_bytes([*b0, *b1]);
                Some((
                    Entry::Tap {
                        card,
                        fare,
                        balance,
                    },
                    rest,
                ))
            }
            _ => None,
        }
    }

    /// Writes the entry at the front of `out`.
    // Stays: a range is the plain form of a part of known length; `first_chunk_mut` would need an `unwrap`.
    pub(crate) fn put(self, out: &mut [u8])
        requires { length (entry_bytes self) ≤ length out.old }
        ensures { out.new ≡ entry_bytes self ++ drop (length (entry_bytes self)) out.old }
    {
        match self {
            Entry::Key { code } => out[..2].copy_from_slice(&[1, code]),
            Entry::Tap {
                card,
                fare,
                balance,
            } => {
                let [c0, c1, c2, c3] = card.to_be_bytes();
                let [f0, f1] = fare.to_be_bytes();
                let [b0, b1] = balance.to_be_bytes();
                out[..9].copy_from_slice(&[2, c0, c1, c2, c3, f0, f1, b0, b1]);
            }
        }
    }
}
