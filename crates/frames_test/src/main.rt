// A test of crates frames and streams: for each line of the input, read seven bytes at a time, its kind with each of its floats, or 21 for a bad line.
#![tactic(auto)]

use hexlines::{Frame, Line};

const STDIN_FILENO: i32 = 0;

const STDOUT_FILENO: i32 = 1;

fn say(kind: u64, floats: &[f64]) {
    for x in floats {
        io::write_all(STDOUT_FILENO, &frames::answer_line(kind, *x));
    }
}

fn show(frame: Option<Frame>) {
    match frame {
        Some(Frame::Open { spot, rate }) => say(10, &[spot, rate]),
        Some(
            Frame::Call {
                strike,
                expiry,
                price,
            },
        ) => say(11, &[strike, expiry, price]),
        Some(
            Frame::Put {
                strike,
                expiry,
                price,
            },
        ) => say(12, &[strike, expiry, price]),
        Some(
            Frame::Vol {
                strike,
                expiry,
                volatility,
            },
        ) => say(13, &[strike, expiry, volatility]),
        Some(Frame::Read { strike, expiry }) => say(20, &[strike, expiry]),
        None => say(21, &[0.0]),
    }
}

// Shows each line that the chunk ends, and keeps what it begins. The next line is taken from the place where the last ended, as `take_line` tells it.
fn take_chunk(mut line: Line, chunk: &[u8]) -> Line {
    let mut from = 0;
    for _ in 0..streams::count_lines(chunk) {
        let taken = streams::take_line(line, chunk, from);
        show(streams::line_frame(taken.line));
        line = streams::no_line();
        from = taken.next;
    }
    streams::take_line(line, chunk, from).line
}

fn main() {
    let mut line = streams::no_line();
    // The loop has an end that no input comes to.
    for _ in 0..u64::MAX {
        let mut input = [0; 7];
        let n = io::read_full(STDIN_FILENO, &mut input);
        if n == 0 {
            break;
        }
        line = take_chunk(line, &input[..n]);
    }
    if streams::begun(line) > 0 {
        show(streams::line_frame(line));
    }
}
