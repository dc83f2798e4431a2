// The hexadecimal program: lines of frames are answered from the quote book, a line for each.
#![tactic(auto)]

ghost use Rattle.std.specs.Prelude.{◌≡◌, ◌+◌, ◌≤◌, length, Err};
ghost use Rattle.std.proofs.Math.Seq.{paste};
ghost use Rattle.floats.specs.Operators.{decimal};
ghost use Rattle.limits.specs.Outcome.{number_of, values_of};
ghost use Rattle.limits.specs.Refusals.{outcome_with};
ghost use Rattle.hexlines.specs.Hex.{answer_line};
ghost use Rattle.book.specs.Lent.{columns_held, SameColumns};
ghost use Rattle.protocol.specs.Calls.{fresh, left, fed, finished, turn_left, turned};
ghost use Rattle.protocol.specs.Moves.{LineEnded};
ghost use Rattle.lines.specs.Moves.{place};

use book::QuoteColumns;
use limits::Refusal;
use protocol::{Fed, Short, State, Step};
use std::ops::ControlFlow;

// ---- a line

// The line of an answer: its value, or the number of why there is none.
#[tactic(auto, unfolding(limits::proofs::Float::of_bits, limits::proofs::Float::round))]
fn answer_line(answer: Result<f64, Refusal>) -> [u8; 19]
    ensures { let said = outcome_with (decimal 0 1) answer in result ≡ answer_line (number_of said) (values_of said) }
{
    frames::answer_line(
        outcomes::number_of(answer),
        outcomes::values_of(answer, 0.0),
    )
}

// The answer's bytes at a place of the buffer.
fn put(text: &[u8; 19], out: &mut [u8], at: usize)
    requires { at + 19 ≤ length out.old }
    ensures { out.new ≡ paste out.old at text.now 19 }
{
    out[at..at + 19].copy_from_slice(text);
}

// What the program holds while a buffer is written: its first `at` bytes are. A place in the buffer and no slice of what is left of it: hexlines' `Moved` and
// protocol's `LineEnded`, and their laws, say what stands up to a place, and of a slice would have to speak of what lies before it too.
#[derive(Clone, Copy)]
struct Progress {
    state: State,
    at: usize,
}

impl Progress {
    // The columns and the buffer are lent apart, and are no fields: a caller may lend another buffer at each call, as crate lines_test does, and would have to
    // make a struct of both anew each time.

    // A line has ended: its frame is heard, and the answer is put behind the text.
    fn end_line(&mut self, columns: &mut QuoteColumns<'_>, out: &mut [u8])
        requires { self.old.at + 19 ≤ length out.old }
        ensures same_memory { SameColumns columns.new columns.old }
        ensures ended { LineEnded
            (place self.old (columns_held columns.old) out.old)
            (place self.new (columns_held columns.new) out.new) }
    {
        let frame = streams::line_frame(self.state.line);
        let said = hearing::hear(self.state.book, frame, columns);
        let text = answer_line(said.answer);
        put(&text, out, self.at);
        self.state = State {
            book: said.book,
            line: streams::no_line(),
        };
        self.at += 19;
    }
}

// ---- the program

// Before any opening the record is zeros.
pub fn start() -> State
    ensures { result ≡ fresh }
{
    State {
        book: book::zero_book(),
        line: streams::no_line(),
    }
}

// Nothing is heard: the buffer has no room for the answers of so many lines.
fn short(state: State, lines: usize) -> Fed
    ensures { result ≡ record { state = state; text = Err (record { lines = lines }) } }
{
    Fed {
        state,
        text: Err(Short { lines }),
    }
}

// Hears a chunk of the input. The answers to the lines that it ends go to the front of `out`; what is left of it is held.
#[tactic(auto, unfolding(protocol::specs::Calls::fed, protocol::specs::Calls::if_room), using(protocol::proofs::Lengths::too_short))]
pub fn feed(state: State, chunk: &[u8], columns: &mut QuoteColumns<'_>, out: &mut [u8]) -> Fed
    ensures same_memory { SameColumns columns.new columns.old }
    ensures heard { left result (columns_held columns.new) out.new
        ≡ fed state (columns_held columns.old) chunk.now out.old }
{
    let lines = streams::count_lines(chunk);
    if out.len() / 19 < lines {
        return short(state, lines);
    }
    let mut p = Progress { state, at: 0 };
    // A place in the chunk and no slice of what is left of it, as at `Progress`: so hexlines' `taken` and its laws have it.
    let mut from = 0;
    for _ in 0..lines {
        let taken = streams::take_line(p.state.line, chunk, from);
        p.state.line = taken.line;
        p.end_line(columns, out);
        from = taken.next;
    }
    let rest = streams::take_line(p.state.line, chunk, from);
    Fed {
        state: State {
            line: rest.line,
            ..p.state
        },
        text: Ok(p.at),
    }
}

// The input has ended: a last line that lacks its line feed is answered.
#[tactic(auto, unfolding(protocol::specs::Calls::finished, protocol::specs::Calls::if_room), using(protocol::proofs::Lengths::too_short))]
pub fn finish(state: State, columns: &mut QuoteColumns<'_>, out: &mut [u8]) -> Fed
    ensures same_memory { SameColumns columns.new columns.old }
    ensures heard { left result (columns_held columns.new) out.new
        ≡ finished state (columns_held columns.old) out.old }
{
    let lines = streams::begun(state.line);
    if out.len() / 19 < lines {
        return short(state, lines);
    }
    if lines == 0 {
        return Fed {
            state: State {
                line: streams::no_line(),
                ..state
            },
            text: Ok(0),
        };
    }
    let mut p = Progress { state, at: 0 };
    p.end_line(columns, out);
    Fed {
        state: p.state,
        text: Ok(p.at),
    }
}

// A turn of the program: a part of the input as a read gave it is heard, and an empty one is the end.
#[tactic(auto, unfolding(protocol::specs::Calls::turned))]
pub fn turn(state: State, part: &[u8], columns: &mut QuoteColumns<'_>, out: &mut [u8]) -> Step
    ensures same_memory { SameColumns columns.new columns.old }
    ensures turned { turn_left result (columns_held columns.new) out.new
        ≡ turned state (columns_held columns.old) part.now out.old }
{
    if part.is_empty() {
        return ControlFlow::Break(finish(state, columns, out));
    }
    ControlFlow::Continue(feed(state, part, columns, out))
}
