// The lines of a byte stream, whatever its chunks: the part of a line that is held, the bytes taken into it, and how many lines there are.
#![tactic(auto)]

ghost use Rattle.std.specs.Prelude.{◌≡◌, length};
ghost use Rattle.hexlines.specs.Frames.{frame_of};
ghost use Rattle.hexlines.specs.Lines.{unended, held, no_line, pushed, taken, feeds};

use hexlines::{Frame, Line, Taken};

pub fn no_line() -> Line
    ensures { result ≡ no_line }
{
    Line {
        bytes: [0; 51],
        seen: 0,
    }
}

// One byte more of the line. Of a full line nothing is copied: it may go on for millions of bytes.
#[tactic(auto, unfolding(hexlines::specs::Lines::pushed))]
pub fn push(line: Line, b: u8) -> Line
    ensures { result ≡ pushed line b }
{
    if line.seen >= line.bytes.len() {
        return line;
    }
    let mut longer = line;
    longer.bytes[longer.seen] = b;
    longer.seen += 1;
    longer
}

// Takes the bytes from a place on into the line, up to a line feed and with it, or to their end. Both ends are places, as in hexlines' `taken` and its laws: of
// a slice that is left they would have to say what lies before it too.
#[tactic(auto, using(hexlines::proofs::Taking::taken_feed, hexlines::proofs::Taking::taken_on, hexlines::proofs::Taking::taken_end))]
pub fn take_line(mut line: Line, bytes: &[u8], from: usize) -> Taken
    ensures { result ≡ taken line bytes.now from }
{
    for i in from..bytes.len() {
        if bytes[i] == b'\n' {
            return Taken { line, next: i + 1 };
        }
        line = push(line, bytes[i]);
    }
    Taken {
        line,
        next: from.max(bytes.len()),
    }
}

// The frame of a line that has ended.
#[tactic(auto, using(hexlines::proofs::Parts::over_full))]
pub fn line_frame(line: Line) -> Option<Frame>
    ensures { result ≡ frame_of (held line) }
{
    frames::frame_of(line.bytes.get(..line.seen)?)
}

// ---- how many lines there are

// How many lines the bytes end.
#[tactic(auto, using(hexlines::proofs::Counting::feeds_counted))]
pub fn count_lines(bytes: &[u8]) -> usize
    ensures { result ≡ feeds bytes.now }
{
    bytes.iter().filter(|b| **b == b'\n').count()
}

// 1 for a part of a line, 0 for nothing.
#[tactic(auto, using(hexlines::proofs::Counting::begun_none, hexlines::proofs::Counting::begun_some))]
pub fn begun(line: Line) -> usize
    ensures { result ≡ length (unended (held line)) }
{
    usize::from(line.seen > 0)
}
