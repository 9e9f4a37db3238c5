//! A journal as a kind of state.
ghost use Rattle.std.specs.Prelude.{◌≡◌, ◌≤◌, ◌++◌, length, drop};
ghost use Rattle.journal.specs.Entries.{entries_bytes};
ghost use Rattle.journal.specs.Journals.{journal_kind, reading as contents, Taken};
ghost use Rattle.journal.specs.Rows.{journal_exact, journal_itself, journal_onward};
ghost use Rattle.journal.specs.Bytes.{journal_reaches};

use crate::entry::Entry;
use crate::journal::{CAPACITY, Journal};
use state::fault::{DiffRefusal, StateFault};
use state::state::State;

impl Journal {
    /// The entries, themselves and not a copy.
    pub fn entries(&self) -> &[Entry]
        ensures value { result.now ≡ (contents self.now).0 }
        ensures bound { length result.now ≤ 64 }
    {
        self.entries.get(..self.count).unwrap_or(&[])
    }

    /// Takes the entries of a diff in, some of which a refusal may leave.
    fn take_entries(&mut self, d: &[u8]) -> Result<(), StateFault>
        ensures { Taken self.old d.now self.new result }
    {
        let mut rest = d;
        let mut full = None;
        // Stays: nothing is counted, since the place is how much is gone; an iterator would have to hand that place on beside each entry, and the one that can't be read as well. The screen's `redraw` is alike, but tells another fault and stops at it.
        while !rest.is_empty() {
            let at = d.len() - rest.len();
            let (entry, behind) = Entry::read(rest).ok_or(StateFault::BadEntry { at })?;
            if self.push(entry).is_err() {
                full = full.or(Some(at));
            }
            rest = behind;
        }
        match full {
            Some(at) => Err(StateFault::TooManyEntries { at }),
            None => Ok(()),
        }
    }
}

/// How many bytes the entries have.
fn bytes_of(entries: &[Entry]) -> usize
    requires { length entries.now ≤ 64 }
    ensures { result ≡ length (entries_bytes entries.now) }
{
    entries.iter().map(|entry| entry.width()).sum()
}

/// Writes the entries one after the other at the front of `out`.
fn put_all(entries: &[Entry], out: &mut [u8])
    requires { length (entries_bytes entries.now) ≤ length out.old }
    ensures { out.new ≡ entries_bytes entries.now ++ drop (length (entries_bytes entries.now)) out.old }
{
    // Stays: a loop that hands on the rest of the buffer was tried, and what it writes is lost at the return; `packet`'s writer is its own, since a public one could ask nothing of its callers.
    let mut at = 0;
    for entry in entries {
        entry.put(&mut out[at..]);
        at += entry.width();
    }
}

impl State for Journal {
    ghost kind = { journal_kind };

    ghost reading = { contents };

    ghost exact = { journal_exact };

    ghost itself = { journal_itself };

    ghost onward = { journal_onward };

    ghost reaches = { journal_reaches };

    fn start() -> Journal {
        Journal {
            entries: [Entry::Key { code: 0 }; CAPACITY],
            count: 0,
        }
    }

    #[tactic(auto, using(crate::proofs::Same::slices_same))]
    fn same(&self, other: &Journal) -> bool {
        self.entries() == other.entries()
    }

    #[tactic(auto, using(crate::proofs::Same::front_same))]
    fn follows(&self, base: &Journal) -> bool {
        self.entries().strip_prefix(base.entries()).is_some()
    }

    #[tactic(auto, using(crate::proofs::Same::front_same))]
    fn size(&self, base: &Journal) -> usize {
        match self.entries().strip_prefix(base.entries()) {
            Some(added) => bytes_of(added),
            None => 0,
        }
    }

    #[tactic(auto, using(crate::proofs::Same::front_same))]
    fn diff(&self, base: &Journal, out: &mut [u8]) -> Result<usize, DiffRefusal> {
        let Some(added) = self.entries().strip_prefix(base.entries()) else {
            return Err(DiffRefusal::NotFollowing);
        };
        let n = bytes_of(added);
        if n > out.len() {
            return Err(DiffRefusal::TooLong);
        }
        put_all(added, out);
        Ok(n)
    }

    fn apply(&mut self, d: &[u8]) -> Result<(), StateFault> {
        let mut next = *self;
        next.take_entries(d)?;
        *self = next;
        Ok(())
    }
}
