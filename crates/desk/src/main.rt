// The program: hexadecimal lines in, the line of an answer out for each. All that it says is `lines`'; here it is read and written.
// Proved is what lies between a read and a write: a turn hears the front of the buffer that was read into, its text is what is handed to the system,
// the next turn gets what this one left, and the end of the input is the last.
// No contract can say which bytes a read gives, nor what becomes of a write. So the program's run holds these: that the count is the read's own, that
// each text is written, once and to standard output, that a failed write ends the program, and that the loop is not left early.
#![tactic(auto)]

ghost use Rattle.std.specs.Prelude.{◌≤◌, ◌≡◌, [], ◌∷◌, length, take};
ghost use Rattle.std.specs.Io.{ReadsAtMost};
ghost use Rattle.book.specs.Lent.{SameColumns};
ghost use Rattle.protocol.specs.Calls.{fresh};
ghost use Rattle.protocol.specs.Turns.{count_of, HadRoom};
ghost use Rattle.desk.specs.Served.{parts_of, state_in, goes_on, Heard, Served};
ghost use Rattle.desk.specs.Held.{held};

use book::QuoteColumns;
use protocol::{Short, State};
use std::io::{Read, Stdin};
use std::ops::ControlFlow;

const STDOUT_FILENO: i32 = 1;

const STDERR_FILENO: i32 = 2;

// What a read gives at most.
const READ: usize = 4096;

// Room for the answers to a read: 19 bytes for each of its bytes are never too few (`roomy` in protocol/specs/Claims).
const ROOM: usize = 19 * READ;

// What a turn leads to: the state that is held, and whether to read on.
type Going = ControlFlow<State, State>;

// What each turn works in: the columns of the book, and the buffer that its text is written to.
#[derive(Drop)]
struct Memory<'a> {
    columns: QuoteColumns<'a>,
    out: [u8; ROOM],
}

impl Memory<'_> {
    // The text of a turn: the front of the buffer, as far as the answers go.
    fn text(&self, written: Result<usize, Short>) -> &[u8]
        requires in_bounds { count_of written ≤ ROOM }
        requires had_room { HadRoom written }
        ensures { result.now ≡ take (count_of written) self.now.out }
    {
        &self.out[..written.unwrap()]
    }

    // The text of a turn is written, and a failure is told.
    fn write(&self, written: Result<usize, Short>) -> bool
        requires in_bounds { count_of written ≤ ROOM }
        requires had_room { HadRoom written }
    {
        let done = put_out(self.text(written), written, &self.out);
        if !done {
            io::write_all(STDERR_FILENO, b"desk: cannot write\n");
        }
        done
    }

    // A turn on a part of the input, whose text is written.
    fn hear(&mut self, state: State, part: &[u8]) -> Going
        requires { length part.now ≤ READ }
        ensures same_memory { SameColumns self.new.columns self.old.columns }
        ensures heard { Heard (length part.now)
            (held state self.old)
            (part.now ∷ [])
            (held (state_in result) self.new) (goes_on result) }
    {
        match lines::turn(state, part, &mut self.columns, &mut self.out) {
            ControlFlow::Continue(fed) => {
                if !self.write(fed.text) {
                    return ControlFlow::Break(fed.state);
                }
                ControlFlow::Continue(fed.state)
            }
            ControlFlow::Break(last) => {
                self.write(last.text);
                ControlFlow::Break(last.state)
            }
        }
    }

    // What a read gave is heard; where it failed, nothing is.
    fn answer(&mut self, got: std::io::Result<usize>, input: &[u8; READ], state: State) -> Going
        requires { ReadsAtMost got input.now }
        ensures same_memory { SameColumns self.new.columns self.old.columns }
        ensures heard { Heard READ
            (held state self.old)
            (parts_of got input.now)
            (held (state_in result) self.new) (goes_on result) }
    {
        match got {
            Ok(count) => self.hear(state, &input[..count]),
            Err(_) => {
                io::write_all(STDERR_FILENO, b"desk: cannot read\n");
                ControlFlow::Break(state)
            }
        }
    }

    // Nothing says that an input ends, so the loop has an end that no run comes to.
    fn serve(&mut self, mut stdin: Stdin) -> Going
        ensures same_memory { SameColumns self.new.columns self.old.columns }
        ensures served { Served READ (held fresh self.old) (held (state_in result) self.new) (goes_on result) }
    {
        let mut input = [0u8; READ];
        let mut state = lines::start();
        for _ in 0..u64::MAX {
            let got = stdin.read(&mut input);
            state = self.answer(got, &input, state)?;
        }
        ControlFlow::Continue(state)
    }
}

// All that is written: the front of the buffer, as far as the answers go. The count and the buffer stand beside it for the clause, which holds it to that.
fn put_out(text: &[u8], written: Result<usize, Short>, out: &[u8; ROOM]) -> bool
    requires { text.now ≡ take (count_of written) out.now }
{
    io::write_all(STDOUT_FILENO, text)
}

fn main(rt: HostRuntime) {
    let mut strikes = [0.0f64; 1024];
    let mut expiries = [0.0f64; 1024];
    let mut volatilities = [0.0f64; 1024];
    let mut memory = Memory {
        columns: QuoteColumns {
            strikes: &mut strikes,
            expiries: &mut expiries,
            volatilities: &mut volatilities,
        },
        out: [0u8; ROOM],
    };
    memory.serve(rt.stdin());
}
