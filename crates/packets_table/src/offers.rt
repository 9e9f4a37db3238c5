//! Rows of fragments that are offered to an assembler.
use assembler::assembly::Assembler;
use assembler::offer::Offer;
use packet::fragment::Fragment;
use state::checksum::internet_checksum;
use std::io;

/// A fragment as a row has it: its contents are `length` times the byte `fill`.
#[derive(Clone, Copy)]
struct Piece {
    sending: u64,
    number: u8,
    last: bool,
    length: usize,
    fill: u8,
}

// Stays: the words are this table's own, and what they become is a `bool`.
fn mark(word: &str) -> Option<bool> {
    match word {
        "last" => Some(true),
        "more" => Some(false),
        _ => None,
    }
}

/// Reads `sending:number:mark:length:fill`.
fn read_piece(word: &str) -> Option<Piece> {
    let mut parts = word.split(':');
    Some(Piece {
        sending: parts.next()?.parse::<u64>().ok()?,
        number: parts.next()?.parse::<u8>().ok()?,
        last: mark(parts.next()?)?,
        length: parts.next()?.parse::<usize>().ok()?,
        fill: hexadecimal::byte(parts.next()?)?,
    })
}

/// Prints the length of an instruction's bytes, and the checksum of each 256 of them.
fn show_sums(rt: &impl Print, bytes: &[u8]) -> io::Result<()> {
    let length = bytes.len();
    print!(rt; " whole of {length} with sums")?;
    for part in bytes.chunks(256) {
        let sum = internet_checksum(part);
        print!(rt; " {sum:04X}")?;
    }
    print!(rt; ";")
}

/// Offers a fragment, and prints the answer; `show` prints the bytes of an instruction that it makes whole.
pub(crate) fn offer_to<F: FnOnce(&[u8]) -> io::Result<()>>(
    rt: &impl Print,
    assembler: &mut Assembler,
    fragment: Fragment<'_>,
    show: F,
) -> io::Result<()>
    requires { F.IsAlwaysCallable show }
{
    match assembler.offer(fragment) {
        Ok(Offer::Part) => print!(rt; " part;"),
        Ok(Offer::Whole { length }) => show(assembler.bytes(length)),
        Ok(Offer::Alone) => {
            print!(rt; " alone,")?;
            show(fragment.contents)
        }
        Err(fault) => print!(rt; " {fault};"),
    }
}

/// Offers the fragment of a row.
fn offer_piece(rt: &impl Print, assembler: &mut Assembler, piece: Piece) -> io::Result<()> {
    let filled = [piece.fill; 300];
    let Some(contents) = filled.get(..piece.length) else {
        return print!(rt; " too long;");
    };
    let fragment = Fragment {
        sending: piece.sending,
        number: piece.number,
        last: piece.last,
        contents,
    };
    offer_to(rt, assembler, fragment, |bytes| show_sums(rt, bytes))
}

/// Offers fragments to one assembler; the word `clear` drops what it holds.
pub(crate) fn offer(rt: &impl Print, text: &str) -> io::Result<()> {
    let mut assembler = Assembler::new();
    for word in text.split(' ') {
        if word == "clear" {
            assembler.clear();
            print!(rt; " cleared;")?;
            continue;
        }
        match read_piece(word) {
            Some(piece) => offer_piece(rt, &mut assembler, piece)?,
            None => break,
        }
    }
    println!(rt; "")
}
