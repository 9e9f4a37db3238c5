//! Reads each line of standard input as a line of a trace, and writes what was read, or its refusal.
#![tactic(auto)]

use std::io;
use std::io::{BufWriter, Read, Write};
use trace::lines::NumberedLines;
use trace::reader::{is_names_line, read_line};

fn judge<W: Write>(out: &mut W, number: u64, text: &[u8]) -> io::Result<()> {
    if is_names_line(text) {
        return writeln!(out, "{number}: names");
    }
    match read_line(text) {
        Ok(line) => writeln!(out, "{number}: {line}"),
        Err(fault) => writeln!(out, "{number}: {fault}"),
    }
}

fn main(rt: HostRuntime) -> io::Result<()> {
    let mut input = Vec::new(rt.alloc());
    rt.stdin().read_to_end(&mut input)?;
    let text = input.as_slice();
    let mut out = BufWriter::new(rt.alloc(), rt.stdout())?;
    for (number, line) in NumberedLines::new(text) {
        judge(&mut out, number, line)?;
    }
    out.flush()
}
