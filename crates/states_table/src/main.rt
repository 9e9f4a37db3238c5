//! Runs a table of diffs, good and damaged: each line has a kind and bytes in hexadecimal.
#![tactic(auto)]

use journal::journal::Journal;
use screen::screen::{Cursor, Screen};
use state::check::Check;
use state::checksum::internet_checksum;
use state::state::State;
use std::alloc::Global;
use std::io;

/// A kind of state whose values the table shows.
trait Show: State {
    fn show<P: Print>(&self, rt: &P) -> io::Result<()>;
}

impl Show for Journal {
    fn show<P: Print>(&self, rt: &P) -> io::Result<()> {
        let count = self.entries().len();
        println!(rt; "{count} entries")
    }
}

impl Show for Screen {
    fn show<P: Print>(&self, rt: &P) -> io::Result<()> {
        let Cursor { row, column } = self.cursor();
        let [first, second, ..] = self.cells();
        println!(rt; "cursor {row} {column}, first cells {first} {second}")
    }
}

impl<K: Show> Show for Check<K> {
    fn show<P: Print>(&self, rt: &P) -> io::Result<()> {
        self.inner().show(rt)
    }
}

/// Applies bytes to a fresh state, and shows it, or why they were refused.
fn apply<K: Show>(rt: &impl Print, diff: &[u8]) -> io::Result<()> {
    let mut state = K::start();
    match state.apply(diff) {
        Ok(()) => state.show(rt),
        Err(fault) => println!(rt; "{fault}"),
    }
}

/// Runs one row of the table.
// Stays: the word is what the row says, and reading it is this match; what it leads to is one function for every kind.
fn run(rt: &impl Print, kind: &str, diff: &[u8]) -> io::Result<()> {
    match kind {
        "journal" => apply::<Journal>(rt, diff),
        "screen" => apply::<Screen>(rt, diff),
        "checked-journal" => apply::<Check<Journal>>(rt, diff),
        "checked-screen" => apply::<Check<Screen>>(rt, diff),
        "sum" => {
            let sum = internet_checksum(diff);
            println!(rt; "sum {sum:04X}")
        }
        _ => println!(rt; "no such kind"),
    }
}

/// A row is a kind and bytes; what stands behind a `#` is a remark.
fn row(rt: &impl Print, heap: Global, line: &str) -> io::Result<()> {
    let (kind, rest) = line.split_once(' ').unwrap_or((line, ""));
    let diff = hexadecimal::bytes(heap, rest)?;
    print!(rt; "{kind}: ")?;
    run(rt, kind, diff.as_slice())
}

// Stays: the other table's `main` is alike, but calls rows of its own; a crate for both would need a closure in place of four lines.
fn main(rt: HostRuntime) -> io::Result<()> {
    for line in rt.lines(rt.alloc()) {
        row(&rt, rt.alloc(), line?.as_str())?;
    }
    Ok(())
}
