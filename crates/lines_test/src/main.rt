// Runs long trays of vectors.py. Each line of the input is five digits of a count, a mark, and a piece of a tray, which is fed so many times:
// mark ' ' feeds the piece and a line feed, mark '+' the piece alone; mark '.' ends the tray, and starts the program anew.
// An answer is written once for all its repetitions in a row, behind how many there are; the end of a tray is written too.
#![tactic(auto)]

ghost use Rattle.std.specs.Prelude.{◌≤◌};

use book::QuoteColumns;
use protocol::{Fed, State};

const STDIN_FILENO: i32 = 0;

const STDOUT_FILENO: i32 = 1;

// An answer, and how many times it came in a row.
#[derive(Clone, Copy)]
struct Repeated {
    answer: [u8; 19],
    times: u64,
}

// The program's state and its columns, and the last answer: none before a tray's first.
#[derive(Drop)]
struct Run<'a> {
    state: State,
    columns: QuoteColumns<'a>,
    last: Option<Repeated>,
}

impl Run<'_> {
    // An answer ends with a line feed.
    fn show(&self) {
        if let Some(last) = &self.last {
            io::print_decimal(STDOUT_FILENO, last.times);
            io::write_all(STDOUT_FILENO, b" ");
            io::write_all(STDOUT_FILENO, &last.answer);
        }
    }

    // One more answer: the same as the last, or another.
    fn note(&mut self, answer: [u8; 19]) {
        match &mut self.last {
            Some(last) if last.answer == answer && last.times < 100000 => last.times += 1,
            _ => {
                self.show();
                self.last = Some(Repeated { answer, times: 1 });
            }
        }
    }

    // What was written for a piece: nothing, or one answer.
    fn note_text(&mut self, fed: Fed, out: &[u8; 64]) {
        self.state = fed.state;
        match fed.text {
            Ok(0) => {}
            Ok(_) => self.note(*out.first_chunk().unwrap()),
            Err(_) => {
                io::write_all(STDOUT_FILENO, b"short\n");
            }
        }
    }

    fn feed(&mut self, piece: &[u8]) {
        let mut out = [0u8; 64];
        let fed = lines::feed(self.state, piece, &mut self.columns, &mut out);
        self.note_text(fed, &out);
    }

    // The tray ends, and a new one begins. The columns are not cleared: the program must not read what an earlier book left there.
    fn end_tray(&mut self) {
        let mut out = [0u8; 64];
        let fed = lines::finish(self.state, &mut self.columns, &mut out);
        self.note_text(fed, &out);
        self.show();
        io::write_all(STDOUT_FILENO, b"end\n");
        self.state = lines::start();
        self.last = None;
    }

    // Feeds the chunks in turn, all of them so many times.
    fn feed_times(&mut self, times: u64, chunks: &[&[u8]]) {
        for chunk in (0..times).flat_map(|_| chunks) {
            self.feed(chunk);
        }
    }

    // A line feed is a chunk of its own.
    fn run_line(&mut self, line: &[u8]) {
        let Some((head, piece)) = line.split_first_chunk::<6>() else {
            return;
        };
        let times = count_of(head);
        match head[5] {
            b'.' => self.end_tray(),
            b' ' => self.feed_times(times, &[piece, b"\n"]),
            _ => self.feed_times(times, &[piece]),
        }
    }
}

// A character below '0' counts as 0, and one above '9' as 9.
fn digit(b: u8) -> u64
    ensures { result ≤ 9 }
{
    u64::from(b.clamp(b'0', b'9') - b'0')
}

// The count that a line starts with.
fn count_of(head: &[u8; 6]) -> u64 {
    let high = digit(head[0]) * 10000 + digit(head[1]) * 1000;
    high + digit(head[2]) * 100 + digit(head[3]) * 10 + digit(head[4])
}

fn main() {
    let mut space = io::large_buffer();
    let n = io::read_full(STDIN_FILENO, &mut space);
    let mut strikes = [0.0f64; 1024];
    let mut expiries = [0.0f64; 1024];
    let mut volatilities = [0.0f64; 1024];
    let mut run = Run {
        state: lines::start(),
        columns: QuoteColumns {
            strikes: &mut strikes,
            expiries: &mut expiries,
            volatilities: &mut volatilities,
        },
        last: None,
    };
    for line in space[..n].split(|&b| b == b'\n') {
        run.run_line(line);
    }
}
