// Feeds the solver the recorded lists of the file `stdin` and writes each answer: its number, the bits of its floats and its evaluations.
// A line is a letter and 16 hexadecimal digits: S starts a solver for a market price, P feeds it a price; M, A, B, C, R and E make a state by hand,
// setting its market price, a point, its rounds or evaluations. vectors.py says what the lines are and makes the answers to expect.
#![tactic(auto)]

use brent::{Answer, Points, Solution, Solver, Unsolved};
use std::iter;

const STDOUT_FILENO: i32 = 1;

// A letter, 16 digits and a line feed.
const LINE: usize = 18;

// A digit's value, in lower case; any other character counts as 0.
fn digit(c: u8) -> u64 {
    match c {
        b'A'..=b'F' => 0,
        _ => frames::digit_value(c.to_ascii_uppercase()),
    }
}

// The number that follows the letter.
fn number(line: &[u8; LINE]) -> u64 {
    line[1..17].iter().fold(0, |n, c| (n << 4) | digit(*c))
}

// Each behind a space.
fn put_all<T: Copy, F: Fn(T)>(values: &[T], put: F)
    requires { F.IsAlwaysCallable put }
{
    for value in values {
        io::write_all(STDOUT_FILENO, b" ");
        put(*value);
    }
}

fn put_floats(floats: &[f64]) {
    put_all(floats, |x| {
        io::print_hex(STDOUT_FILENO, frames::bits_of(x), 16);
    });
}

fn put_counts(counts: &[u64]) {
    put_all(counts, |n| {
        io::print_decimal(STDOUT_FILENO, n);
    });
}

fn put_state(s: Solver) {
    let p = s.points;
    io::write_all(STDOUT_FILENO, b"\n  state");
    put_floats(&[s.market, p.a, p.b, p.c, p.fa, p.fb, p.fc, p.d, p.e]);
    put_counts(&[s.rounds, s.evaluations]);
}

fn put_solved(solved: Result<Solution, Unsolved>) {
    match solved {
        Ok(solution) => {
            io::write_all(STDOUT_FILENO, b"found");
            put_floats(&[
                solution.volatility,
                solution.error,
                solution.c,
                solution.c_error,
            ]);
            put_counts(&[solution.evaluations]);
        }
        Err(unsolved) => {
            io::write_all(STDOUT_FILENO, b"refused");
            put_counts(&[u64::from(unsolved.refusal), unsolved.evaluations]);
        }
    }
}

// Writes an answer, and the whole state where it ended; hands the state on.
fn tell(answer: Answer) -> Solver {
    let next = match answer {
        Answer::Ask { volatility, next } => {
            io::write_all(STDOUT_FILENO, b"ask");
            put_floats(&[volatility]);
            put_counts(&[next.rounds, next.evaluations]);
            next
        }
        Answer::Ended { solved, next } => {
            put_solved(solved);
            put_state(next);
            next
        }
    };
    io::write_all(STDOUT_FILENO, b"\n");
    next
}

// One line: a call of the solver, or a state made by hand.
fn turn(letter: u8, n: u64, s: Solver) -> Solver {
    let x = frames::float_of(n);
    let points = s.points;
    match letter {
        b'S' => tell(solver::start(x)),
        b'P' => tell(solver::feed(s, x)),
        b'M' => Solver { market: x, ..s },
        b'A' => Solver {
            points: Points { a: x, ..points },
            ..s
        },
        b'B' => Solver {
            points: Points { b: x, ..points },
            ..s
        },
        b'C' => Solver {
            points: Points { c: x, ..points },
            ..s
        },
        b'R' => Solver { rounds: n, ..s },
        b'E' => Solver {
            evaluations: n,
            ..s
        },
        _ => s,
    }
}

fn main() {
    let mut s = Solver::default();
    for line in iter::from_fn(vectors::read_line::<LINE>).take(1000000) {
        s = turn(line[0], number(&line), s);
    }
}
