//! Runs a table of datagrams, instructions and fragments, good and bad: each line has a kind and what it works on.
#![tactic(auto)]

mod layouts;
mod offers;
mod sendings;

use std::alloc::Global;
use std::io;

/// Runs one row of the table; what stands behind a `#` is a remark.
// Stays: the word is what the row says, and reading it is this match; what it leads to reads each its own kind of row.
fn row(rt: &impl Print, heap: Global, line: &str) -> io::Result<()> {
    let (kind, rest) = line.split_once(' ').unwrap_or((line, ""));
    print!(rt; "{kind}:")?;
    match kind {
        "datagram" => layouts::datagram(rt, heap, rest),
        "instruction" => layouts::instruction(rt, heap, rest),
        "assemble" => sendings::assemble(rt, rest),
        "offer" => offers::offer(rt, rest),
        _ => println!(rt; " no such kind"),
    }
}

// Stays: the other table's `main` is alike, but calls rows of its own; a crate for both would need a closure in place of four lines.
fn main(rt: HostRuntime) -> io::Result<()> {
    for line in rt.lines(rt.alloc()) {
        row(&rt, rt.alloc(), line?.as_str())?;
    }
    Ok(())
}
