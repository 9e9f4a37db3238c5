//! The lines of a text as bytes, read one after another.
ghost use Rattle.std.specs.Prelude.{◌≡◌, ◌≤◌, [], ◌∷◌, length, drop, MatchOption};
ghost use Rattle.std.specs.Iterator.{YieldsFirstBy, item_count};
ghost use Rattle.trace.specs.Lines.{LastAt, LineAt, line_length, lines_of, next_count, next_place, numbered_on, Rejoins};

/// How far a text has been read, in bytes.
#[derive(Clone, Copy)]
pub struct ReadingPlace {
    pub at: usize,
}

/// How many lines of it have been read.
#[derive(Clone, Copy)]
pub struct LineCount {
    pub lines: u64,
}

/// How many bytes stand before the first 0A.
fn line_len(text: &[u8]) -> usize
    ensures value { result ≡ line_length text.now }
    ensures bound { result ≤ length text.now }
{
    text.iter().position(|b| *b == b'\n').unwrap_or(text.len())
}

/// The line at a place, without its 0A, and the place behind it.
// Stays: a line is what stands before its 0A, and a range says so; `split` would not tell the place behind it.
fn line_at(text: &[u8], at: usize) -> Option<(&[u8], usize)>
    ensures { MatchOption result (LastAt text.now at) (λ found. LineAt text.now at found.0.now found.1) }
{
    if at >= text.len() {
        return None;
    }
    let rest = &text[at..];
    let line = &rest[..line_len(rest)];
    let next = text.len().min(at + line.len() + 1);
    Some((line, next))
}

/// Reads the next line of a trace, without its 0A, and moves the place and the count behind it.
/// At the end there is none, and both stay.
// Stays: the place and the count are two plain records in two parameters by a rule of the project; a caller that looks ahead saves them and puts them back.
pub fn next_line<'a>(
    trace: &'a [u8],
    place: &mut ReadingPlace,
    count: &mut LineCount,
) -> Option<&'a [u8]>
    ensures line { MatchOption result (lines_of (drop place.old.at trace.now) ≡ []) (λ line. lines_of (drop place.old.at trace.now) ≡ line.now ∷ lines_of (drop place.new.at trace.now)) }
    ensures place { place.new.at ≡ next_place trace.now place.old.at }
    ensures count { count.new.lines ≡ next_count trace.now place.old.at count.old.lines }
{
    let (line, next) = line_at(trace, place.at)?;
    place.at = next;
    count.lines = count.lines.saturating_add(1);
    Some(line)
}

/// The lines of a text that are still to come, each without its 0A and with its number.
#[derive(Drop)]
pub struct NumberedLines<'a> {
    text: &'a [u8],
    place: ReadingPlace,
    count: LineCount,
    ghost counted: { count.lines ≤ place.at },
}

impl<'a> NumberedLines<'a> {
    ghost use Rattle.trace.specs.LinesLeft.{lines_left};

    /// All lines of a text, numbered from 1.
    pub fn new(text: &'a [u8]) -> NumberedLines<'a>
        ensures { lines_left result ≡ numbered_on 0 (lines_of text.now) }
    {
        NumberedLines {
            text,
            place: ReadingPlace { at: 0 },
            count: LineCount { lines: 0 },
        }
    }
}

impl<'a> Iterator for NumberedLines<'a> {
    type Item = (u64, &'a [u8]);

    ghost use Rattle.trace.specs.LinesLeft.{line_of_item, lines_left};

    ghost next_gives = { YieldsFirstBy line_of_item lines_left };

    ghost remaining = { item_count lines_left };

    #[tactic(auto, using(crate::proofs::Cuts::none_left))]
    fn next(&mut self) -> Option<(u64, &'a [u8])> {
        let line = next_line(self.text, &mut self.place, &mut self.count)?;
        Some((self.count.lines, line))
    }
}

/// That the lines of a text, joined, are the text again.
pub fn lines_stand()
    ensures { Rejoins }
{}
