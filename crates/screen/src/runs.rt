//! The cells of screens, and the runs of cells in which two screens differ.
ghost use Rattle.std.specs.Prelude.{◌≡◌, ℕ, ◌+◌, ◌-◌, ◌*◌, ◌%◌, ◌<◌, ◌≤◌, ◌++◌, length, drop, Ok, Err};
ghost use Rattle.std.specs.Iterator.{YieldsFirstBy, item_count};
ghost use Rattle.screen.specs.Runs.{is_character, all_characters, differ, begins, run_length, run_bytes, runs_from, runs_listed, fits, redrawn};

use state::fault::StateFault;

/// A screen has eight rows of forty cells.
pub(crate) const ROWS: usize = 8;

pub(crate) const COLUMNS: usize = 40;

pub(crate) const CELLS: usize = 320;

/// The cells of a screen, row by row.
// Stays: no heap and no invariant in the type of a state, by a rule of the project: `contents_of` gives every value of these cells contents.
pub(crate) type Cells = [u8; CELLS];

pub(crate) fn is_character(x: u8) -> bool
    ensures { result ≡ is_character x }
{
    matches!(x, b' '..=b'~')
}

/// Whether all cells hold characters. It looks at each, which takes them many at a time; an early end would take them one by one.
pub(crate) fn all_characters(cells: &[u8]) -> bool
    ensures { result ≡ all_characters cells.now }
{
    cells.iter().fold(true, |all, x| all & is_character(*x))
}

/// A run of cells in one row: the position of the first, and the characters.
#[derive(Clone, Copy)]
pub(crate) struct Run<'a> {
    position: usize,
    characters: &'a [u8],
    ghost on_screen: { position < 320 },
    ghost in_row: { position % 40 + length characters.now ≤ 40 },
}

impl<'a> Run<'a> {
    ghost use Rattle.screen.specs.Steps.{RunRead};

    /// The position behind the last cell.
    fn end(self) -> usize
        ensures { result ≡ self.entry.position + length self.entry.characters.now }
    {
        self.position + self.characters.len()
    }

    /// How many bytes tell the run.
    fn size(self) -> usize
        ensures { result ≡ 3 + length self.entry.characters.now }
    {
        3 + self.characters.len()
    }

    /// Writes the bytes that tell the run, which fill `out`.
    fn write(self, out: &mut [u8])
        requires { length out.old ≡ 3 + length self.characters.now }
        ensures { out.new ≡ run_bytes self.entry.position self.entry.characters.now }
    {
        out[0] = (self.position / COLUMNS) as u8;
        out[1] = (self.position % COLUMNS) as u8;
        out[2] = self.characters.len() as u8;
        out[3..].copy_from_slice(self.characters);
    }

    /// The run that `bytes` begin with and the bytes behind it, if it is a good one; cells before `free` are taken.
    fn read(bytes: &'a [u8], free: usize) -> Option<(Run<'a>, &'a [u8])>
        ensures { RunRead free bytes.now result }
    {
        let [row, column, count, ref behind @ ..] = *bytes else {
            return None;
        };
        let (characters, rest) = behind.split_at_checked(usize::from(count))?;
        if !run_fits(free, row, column, count) || !all_characters(characters) {
            return None;
        }
        let run = Run {
            position: COLUMNS * usize::from(row) + usize::from(column),
            characters,
        };
        Some((run, rest))
    }
}

/// Whether a run may have this place and length, where cells before `free` are taken.
fn run_fits(free: usize, row: u8, column: u8, count: u8) -> bool
    ensures { result ≡ fits free row column count }
{
    usize::from(row) < ROWS
        && count >= 1
        && usize::from(column) + usize::from(count) <= COLUMNS
        && free <= COLUMNS * usize::from(row) + usize::from(column)
}

/// What changed between two screens: the cells before, and those after.
#[derive(Clone, Copy)]
pub(crate) struct Difference<'a> {
    pub(crate) old: &'a Cells,
    pub(crate) new: &'a Cells,
}

impl<'a> Difference<'a> {
    ghost use Rattle.screen.specs.Steps.{FirstDiffering, runs_left};

    /// The first position from `from` on at which the cells differ.
    fn first_differing(self, from: usize) -> Option<usize>
        requires { from ≤ 320 }
        ensures { FirstDiffering self.entry.old.now self.entry.new.now from result }
    {
        (from..CELLS).find(|i| self.old[*i] != self.new[*i])
    }

    /// Of the cells from `position` to the end of its row, how many differ before the first that do not.
    fn run_length(self, position: usize) -> usize
        requires { position < 320 }
        ensures { result ≡ run_length self.entry.old.now self.entry.new.now position }
    {
        let Difference { old, new } = self;
        let end = position - position % COLUMNS + COLUMNS;
        old[position..end]
            .iter()
            .zip(&new[position..end])
            .take_while(|(a, b)| a != b)
            .count()
    }

    /// The runs of differing cells, from the first position to the last.
    fn runs(self) -> Runs<'a>
        ensures { runs_left result ≡ runs_listed self.entry.old.now self.entry.new.now 0 320 }
    {
        Runs {
            difference: self,
            from: 0,
        }
    }

    /// How many bytes tell all runs.
    pub(crate) fn size(self) -> usize
        ensures value { result ≡ length (runs_from self.entry.old.now self.entry.new.now 0 320) }
        ensures bound { result ≤ 13760 }
    {
        self.runs().map(|run| run.size()).sum()
    }

    /// Writes all runs at the front of `out`.
    pub(crate) fn write(self, out: &mut [u8])
        requires { length (runs_from self.old.now self.new.now 0 320) ≤ length out.old }
        ensures { out.new ≡ runs_from self.entry.old.now self.entry.new.now 0 320 ++ drop (length (runs_from self.entry.old.now self.entry.new.now 0 320)) out.old }
    {
        // Stays: as in a journal's `put_all`, what a loop writes through the rest of a buffer is lost at the return, and `packet`'s writer is its own.
        let mut at = 0;
        for run in self.runs() {
            let end = at + run.size();
            run.write(&mut out[at..end]);
            at = end;
        }
    }
}

/// The runs of differing cells that begin at `from` or behind it.
#[derive(Drop)]
struct Runs<'a> {
    difference: Difference<'a>,
    from: usize,
    ghost on_screen: { from ≤ 320 },
    ghost between_runs: { begins difference.old.now difference.new.now from ≡ differ difference.old.now difference.new.now from },
}

impl<'a> Iterator for Runs<'a> {
    type Item = Run<'a>;

    ghost use Rattle.screen.specs.Steps.{bytes_of, runs_left};

    ghost next_gives = { YieldsFirstBy bytes_of runs_left };

    ghost remaining = { item_count runs_left };

    fn next(&mut self) -> Option<Run<'a>> {
        let position = self.difference.first_differing(self.from)?;
        let end = position + self.difference.run_length(position);
        self.from = end;
        let cells = self.difference.new;
        Some(Run {
            position,
            characters: &cells[position..end],
        })
    }
}

/// Takes all runs of a diff, which stand behind its cursor, into `cells`; after a refusal these may have some of them.
pub(crate) fn redraw(cells: &mut Cells, d: &[u8]) -> Result<(), StateFault>
    requires { 2 ≤ length d.now }
    ensures { elim result [ Ok u ↦ redrawn cells.old d.now ≡ Ok cells.new | Err f ↦ redrawn cells.old d.now ≡ Err f ] }
{
    let mut rest = &d[2..];
    let mut free = 0;
    // Stays: nothing is counted, since the place is how much is gone; and each run is read by where the one before ended.
    while !rest.is_empty() {
        let at = d.len() - rest.len();
        let (run, behind) = Run::read(rest, free).ok_or(StateFault::BadRun { at })?;
        free = run.end();
        cells[run.position..free].copy_from_slice(run.characters);
        rest = behind;
    }
    Ok(())
}
