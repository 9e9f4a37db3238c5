//! What the number table is asked, and how it changes.
ghost use Rattle.std.specs.Prelude.{◌≡◌, ◌/◌, ◌^◌, ◌<◌, ◌≤◌, true};
ghost use Rattle.window.specs.Numbers.{recorded, free, place, adding, starting_at, standing};

use crate::table::NumberTable;

/// The marks without the lowest `by`.
fn shifted(marks: u64, by: u32) -> u64
    ensures { result ≡ marks / 2 ^ by }
{
    marks.checked_shr(by).unwrap_or(0)
}

impl NumberTable {
    /// Whether the number `n` is held.
    pub(crate) fn holds(&self, n: u32) -> bool
        ensures { result ≡ (recorded self.now).held n }
    {
        n.checked_sub(self.anchor)
            .is_some_and(|bit| shifted(self.marks, bit) % 2 == 1)
    }

    /// Whether the number `n` lies in the window and isn't held.
    pub(crate) fn takes(&self, n: u32) -> bool
        ensures { result ≡ free (recorded self.now) n }
    {
        n >= self.anchor && ((n - self.anchor) as usize) < self.width && !self.holds(n)
    }

    /// The place of the element of the number `n`.
    pub(crate) fn place(&self, n: u32) -> usize
        ensures value { result ≡ place (recorded self.now) n }
        ensures bound { result < self.now.width }
    {
        n as usize % self.width
    }

    /// The place of the number `n`, where it is held.
    pub(crate) fn standing(&self, n: u32) -> Option<usize>
        ensures { result ≡ standing (recorded self.now) n }
    {
        self.holds(n).then_some(self.place(n))
    }

    /// The table with the number `n` held too.
    pub(crate) fn with(self, n: u32) -> NumberTable
        requires { free (recorded self) n ≡ true }
        ensures { recorded result ≡ adding (recorded self) n }
    {
        NumberTable {
            anchor: self.anchor,
            marks: self.marks | (1 << (n - self.anchor)),
            width: self.width,
        }
    }

    /// The table from the anchor `to` on.
    pub(crate) fn raised(self, to: u32) -> NumberTable
        requires { self.anchor ≤ to }
        ensures { recorded result ≡ starting_at (recorded self) to }
    {
        NumberTable {
            anchor: to,
            marks: shifted(self.marks, to - self.anchor),
            width: self.width,
        }
    }
}
