//! A state shown by its checked diff from the start, taken into a fresh state and sent as datagrams.
use crate::sending::Sending;
use packet::datagram::Direction;
use state::check::Check;
use state::checksum::internet_checksum;
use state::state::State;
use std::io;

/// Prints bytes in hexadecimal, sixteen to a line.
pub(crate) fn print_bytes(rt: &impl Print, bytes: &[u8]) -> io::Result<()> {
    for line in bytes.chunks(16) {
        if let Some((first, others)) = line.split_first() {
            print!(rt; "{first:02X}")?;
            for b in others {
                print!(rt; " {b:02X}")?;
            }
            println!(rt; "")?;
        }
    }
    Ok(())
}

/// Applies the diff to a fresh state, and says whether the two are the same then.
fn show_applied<K: State>(rt: &impl Print, name: &str, state: &K, diff: &[u8]) -> io::Result<()> {
    let mut fresh = K::start();
    match fresh.apply(diff) {
        Ok(()) if fresh.same(state) => println!(rt; "{name} applied to the start: the same"),
        Ok(()) => println!(rt; "{name} applied to the start: another state"),
        Err(fault) => println!(rt; "{name} applied to the start: refused, {fault}"),
    }
}

/// Prints the checked diff of a state from the start, with its length and its checksum, applies it and sends it.
pub(crate) fn show<K: State>(
    rt: &impl Print,
    name: &str,
    state: &K,
    direction: Direction,
) -> io::Result<()> {
    let checked = Check::over(*state);
    let mut buffer = [0u8; 2048];
    let n = match checked.diff(&Check::<K>::start(), &mut buffer) {
        Ok(n) => n,
        Err(refusal) => return println!(rt; "{name} diff: {refusal}"),
    };
    // Stays: an array since nothing here is on a heap; the diff tells how much of it was written.
    let diff = &buffer[..n];
    let Some((inner, _)) = diff.split_last_chunk::<2>() else {
        return println!(rt; "{name} diff: no bytes");
    };
    let sum = internet_checksum(inner);
    println!(rt; "{name} diff: {n} bytes, sum {sum}")?;
    print_bytes(rt, diff)?;
    show_applied(rt, name, &checked, diff)?;
    Sending { name, diff }.show(rt, direction)
}
