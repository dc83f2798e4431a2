// Runs sqrt, exp, ln, erfc, pdf, cdf and cdf_pair on the vectors of standard input, and writes for each the function, the input's bits, the answer's bits,
// and ok or MISMATCH. The last line has the totals. vectors.py makes the vectors and says what a line holds and where the expected values are from.
#![tactic(auto)]

use std::iter;
use vectors::{Tally, Wanted, Words};

const STDOUT_FILENO: i32 = 1;

// Four letters for the function, a mark, and three words: the input, what is wanted, and the tolerance, or a pair's other argument.
const LINE: usize = 58;

// The function by the first two letters of its name; 1st and 2nd are the values of a pair, x beside another.
fn value(name: &[u8], x: f64, other: f64) -> f64 {
    match name {
        [b'1', ..] => normal::cdf_pair(x, other).first,
        [b'2', ..] => normal::cdf_pair(other, x).second,
        [b's', ..] => root::sqrt(x),
        [b'l', ..] => exponential::ln(x),
        [b'p', ..] => normal::pdf(x),
        [b'c', ..] => normal::cdf(x),
        [_, b'x', ..] => exponential::exp(x),
        _ => normal::erfc(x),
    }
}

// Answers whether the function agrees with the line, and writes the answer out. '=' asks for the same bits, anything else for a distance of at most
// the tolerance: a pair's lines ask for the same bits.
fn judge(line: &[u8; LINE]) -> bool {
    let mut words = Words { text: &line[7..] };
    let input = words.word();
    let bits = words.word();
    let tolerance_or_other = words.float();
    let got = value(&line[..4], frames::float_of(input), tolerance_or_other);
    let wanted = if line[5] == b'=' {
        Wanted::Bits(bits)
    } else {
        Wanted::Near {
            value: frames::float_of(bits),
            tolerance: tolerance_or_other,
        }
    };
    let agrees = wanted.is_met(got);
    io::write_all(STDOUT_FILENO, &line[..4]);
    vectors::print_word(input);
    vectors::print_word(frames::bits_of(got));
    io::write_all(STDOUT_FILENO, vectors::line_end(agrees).as_slice());
    agrees
}

fn main() {
    let mut tally = Tally::default();
    for line in iter::from_fn(vectors::read_line::<LINE>).take(100000) {
        if line[0] != b'#' {
            tally.count(judge(&line));
        }
    }
    tally.print();
}
