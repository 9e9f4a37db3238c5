//! A screen: its value, and what it offers as a kind of state.
ghost use Rattle.std.specs.Prelude.{◌≡◌, ◌<◌, ◌≤◌, true, ◌&&◌, ◌++◌, length, drop, ◌==◌};
ghost use Rattle.std.specs.Str.{bytes_eq};
ghost use Rattle.screen.specs.Runs.{is_character};
ghost use Rattle.screen.specs.Screen.{on_screen, legal, picture_of, contents_of, diff, screen_kind, drawn_at, Drawn, AppliesAsTold};
ghost use Rattle.screen.specs.Steps.{Taken, CursorTold};
ghost use Rattle.screen.specs.Legal;
ghost use Rattle.screen.specs.Arrival;
ghost use Rattle.std.proofs.Common.{rules};

use crate::runs::{CELLS, COLUMNS, Difference, ROWS, all_characters, is_character, redraw};
use state::fault::{DiffRefusal, EditRefusal, StateFault};
use state::state::State;

/// The place of the cursor.
#[derive(Clone, Copy, PartialEq, Eq, Debug)]
pub struct Cursor {
    pub row: u8,
    pub column: u8,
}

impl Cursor {
    fn is_on_screen(self) -> bool
        ensures { result ≡ on_screen self.row self.column }
    {
        usize::from(self.row) < ROWS && usize::from(self.column) < COLUMNS
    }

    /// The cursor that a diff begins with, if it is on the screen.
    fn read(d: &[u8]) -> Option<Cursor>
        ensures { CursorTold d.now result }
    {
        let [row, column, ..] = *d else {
            return None;
        };
        let cursor = Cursor { row, column };
        cursor.is_on_screen().then_some(cursor)
    }
}

/// Eight rows of forty characters, row by row, and the cursor. A screen with a character or the cursor out of bounds reads as the start.
#[derive(Clone, Copy)]
pub struct Screen {
    cells: [u8; CELLS],
    cursor: Cursor,
}

static BLANK: Screen = Screen {
    cells: [b' '; CELLS],
    cursor: Cursor { row: 0, column: 0 },
};

impl Screen {
    fn is_legal(&self) -> bool
        ensures { result ≡ legal (picture_of self.now) }
    {
        all_characters(&self.cells) && self.cursor.is_on_screen()
    }

    /// This screen if it is legal, the start otherwise.
    fn settled(&self) -> &Screen
        ensures { picture_of result.now ≡ (contents_of self.now).0 }
    {
        if self.is_legal() { self } else { &BLANK }
    }

    /// The characters of the screen, row by row.
    pub fn cells(&self) -> &[u8; CELLS]
        ensures { result.now ≡ (contents_of self.now).0.cells }
    {
        &self.settled().cells
    }

    pub fn cursor(&self) -> Cursor
        ensures row { result.row ≡ (contents_of self.now).0.row }
        ensures column { result.column ≡ (contents_of self.now).0.column }
    {
        self.settled().cursor
    }

    /// This screen with a diff taken into it.
    fn taking(&self, d: &[u8]) -> Result<Screen, StateFault>
        ensures { Taken self.now d.now result }
    {
        let cursor = Cursor::read(d).ok_or(StateFault::BadRun { at: 0 })?;
        let mut cells = *self.cells();
        redraw(&mut cells, d)?;
        Ok(Screen { cells, cursor })
    }

    /// What changed from `base` to this screen.
    fn since<'a>(&'a self, base: &'a Screen) -> Difference<'a>
        ensures old { result.old.now ≡ (contents_of base.now).0.cells }
        ensures new { result.new.now ≡ (contents_of self.now).0.cells }
    {
        Difference {
            old: base.cells(),
            new: self.cells(),
        }
    }

    /// The length of the diff from `base` to this screen.
    fn size_from(&self, base: &Screen) -> usize
        ensures value { result ≡ length (diff (contents_of base.now) (contents_of self.now)) }
        ensures bound { result ≤ 13762 }
    {
        2 + self.since(base).size()
    }

    /// Writes the diff from `base` to this screen at the front of `out`.
    fn write_from(&self, base: &Screen, out: &mut [u8])
        requires { length (diff (contents_of base.now) (contents_of self.now)) ≤ length out.old }
        ensures { out.new ≡ diff (contents_of base.now) (contents_of self.now) ++ drop (length (diff (contents_of base.now) (contents_of self.now))) out.old }
    {
        let Cursor { row, column } = self.cursor();
        out[0] = row;
        out[1] = column;
        self.since(base).write(&mut out[2..]);
    }

    /// This screen with one character drawn, and the cursor on it.
    fn drawing(&self, position: usize, character: u8) -> Screen
        requires { (position < 320) × (is_character character ≡ true) }
        ensures { (contents_of result).0 ≡ drawn_at (contents_of self.now).0 position character }
    {
        let mut cells = *self.cells();
        cells[position] = character;
        let cursor = Cursor {
            row: (position / COLUMNS) as u8,
            column: (position % COLUMNS) as u8,
        };
        Screen { cells, cursor }
    }

    /// This screen with a character at a position by rows, and the cursor there.
    pub fn with_character(&self, position: u32, character: u32) -> Result<Screen, EditRefusal>
        ensures { Drawn self.now position character result }
    {
        let position = position as usize;
        match u8::try_from(character) {
            Ok(character) if position < CELLS && is_character(character) => {
                Ok(self.drawing(position, character))
            }
            _ => Err(EditRefusal::OutsideField),
        }
    }
}

impl State for Screen {
    ghost kind = { screen_kind };

    ghost reading = { contents_of };

    ghost exact = { Legal.exact };

    ghost itself = { Prim.search rules };

    ghost onward = { Prim.search rules };

    ghost reaches = { Arrival.reaches };

    fn start() -> Screen {
        BLANK
    }

    fn same(&self, other: &Screen) -> bool {
        self.cursor() == other.cursor() && self.cells() == other.cells()
    }

    fn follows(&self, _base: &Screen) -> bool {
        true
    }

    fn size(&self, base: &Screen) -> usize {
        self.size_from(base)
    }

    fn diff(&self, base: &Screen, out: &mut [u8]) -> Result<usize, DiffRefusal> {
        let size = self.size_from(base);
        if size > out.len() {
            return Err(DiffRefusal::TooLong);
        }
        self.write_from(base, out);
        Ok(size)
    }

    fn apply(&mut self, d: &[u8]) -> Result<(), StateFault> {
        *self = self.taking(d)?;
        Ok(())
    }
}

/// A diff that is taken leaves what it tells.
pub fn apply_stands()
    ensures { AppliesAsTold }
{}
