//! Reads a trip's keys, taps and positions from a trace, and shows the journal and the screen that they make.
#![tactic(auto)]

mod entering;
mod report;
mod sending;

use entering::{Trip, entered};
use packet::datagram::Direction;
use state::state::State;
use std::io;
use std::io::Read;
use trace::lines::NumberedLines;
use trace::reader::{is_names_line, read_line};

/// Takes one line in, or says with its number what is wrong with it.
fn take_line(rt: &impl Print, trip: &mut Trip, number: u64, text: &[u8]) -> io::Result<()> {
    if number == 1 && is_names_line(text) {
        return Ok(());
    }
    match read_line(text) {
        Ok(line) => match entered(trip, line) {
            Ok(next) => {
                *trip = next;
                Ok(())
            }
            Err(refusal) => println!(rt; "line {number}: {refusal}"),
        },
        Err(fault) => println!(rt; "line {number}: not a line of a trace: {fault}"),
    }
}

/// Takes all lines in, one after another.
fn take_lines(rt: &impl Print, trip: &mut Trip, text: &[u8]) -> io::Result<()> {
    for (number, line) in NumberedLines::new(text) {
        take_line(rt, trip, number, line)?;
    }
    Ok(())
}

fn main(rt: HostRuntime) -> io::Result<()> {
    let mut input = Vec::new(rt.alloc());
    rt.stdin().read_to_end(&mut input)?;
    let mut trip = Trip::start();
    take_lines(&rt, &mut trip, input.as_slice())?;
    report::show(&rt, "journal", &trip.journal, Direction::TowardDepot)?;
    report::show(&rt, "screen", &trip.screen, Direction::TowardReader)
}
