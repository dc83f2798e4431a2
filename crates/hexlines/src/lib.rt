// Hexadecimal lines on paper: digits, frames and answers, the lines of a byte stream, and a session over any book (specs/). Crate `frames` has the
// calls of one line, `streams` those of a stream.
#![tactic(auto)]

// What a line says. Of a line that check 21 refuses there is none.
#[derive(Clone, Copy)]
pub enum Frame {
    Open {
        spot: f64,
        rate: f64,
    },
    Call {
        strike: f64,
        expiry: f64,
        price: f64,
    },
    Put {
        strike: f64,
        expiry: f64,
        price: f64,
    },
    Vol {
        strike: f64,
        expiry: f64,
        volatility: f64,
    },
    Read {
        strike: f64,
        expiry: f64,
    },
}

// The part of a line that came so far: its first 51 bytes, and how many they are. A line that fills them is too long for a frame.
// A buffer with its length beside it, in fixed memory: callers hand both in and are answered whatever the two are, where a vector of fixed capacity would ask
// that they agree.
#[derive(Clone, Copy)]
pub struct Line {
    pub bytes: [u8; 51],
    pub seen: usize,
}

// What was taken of the bytes: the line with it, and the place behind it.
#[derive(Drop)]
pub struct Taken {
    pub line: Line,
    pub next: usize,
}
