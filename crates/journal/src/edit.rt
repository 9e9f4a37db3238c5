//! A journal with one entry more.
ghost use Rattle.std.specs.Prelude.{◌≡◌};
ghost use Rattle.journal.specs.Journals.{reading as contents};
ghost use Rattle.journal.specs.Edits.{edited, keyed, pushed, Pushed, tapped};

use crate::entry::Entry;
use crate::journal::{CAPACITY, Journal};
use state::fault::EditRefusal;

impl Journal {
    /// Puts an entry behind the others; a full journal is refused and stays as it is.
    pub(crate) fn push(&mut self, entry: Entry) -> Result<(), EditRefusal>
        ensures { Pushed self.old entry self.new result }
    {
        let at = self.entries().len();
        if at >= CAPACITY {
            return Err(EditRefusal::Full);
        }
        self.entries[at] = entry;
        self.count = at + 1;
        Ok(())
    }

    /// The journal with an entry more; a full one is refused.
    pub fn with_entry(&self, entry: Entry) -> Result<Journal, EditRefusal>
        ensures { edited result ≡ pushed (contents self.now) entry }
    {
        let mut next = *self;
        next.push(entry)?;
        Ok(next)
    }

    /// The journal with a key more; a code above 255 is refused before a full journal.
    pub fn with_key(&self, code: u32) -> Result<Journal, EditRefusal>
        ensures { edited result ≡ keyed (contents self.now) code }
    {
        let code = u8::try_from(code).map_err(|_| EditRefusal::OutsideField)?;
        self.with_entry(Entry::Key { code })
    }

    /// The journal with a tap more; a fare or balance above 65,535 is refused before a full journal.
    pub fn with_tap(&self, card: u32, fare: u32, balance: u32) -> Result<Journal, EditRefusal>
        ensures { edited result ≡ tapped (contents self.now) card fare balance }
    {
        let fare = u16::try_from(fare).map_err(|_| EditRefusal::OutsideField)?;
        let balance = u16::try_from(balance).map_err(|_| EditRefusal::OutsideField)?;
        self.with_entry(Entry::Tap {
            card,
            fare,
            balance,
        })
    }
}
