// Replays a sample of the oracle's answers: each line of standard input is a kind, inputs and the answer that the Rust gave, in hexadecimal bits; the
// program computes the answer anew and compares, and writes each line that differs and the totals by kind. oracle/src/bin/sample.rs writes the sample and
// says what a line holds.
#![tactic(auto)]

ghost use Rattle.std.specs.Prelude.{◌≤◌};

use admission::{Quotes, SurfaceBuffers};
use blackscholes::{OptionParams, OptionType};
use brent::{Solution, Unsolved};
use chart::Lengths;
use frames::bits_of;
use limits::Refusal;
use outcomes::number_of;
use readings::Surface;
use std::iter;
use vectors::{Tally, Words};

const STDIN_FILENO: i32 = 0;

const STDOUT_FILENO: i32 = 1;

// ---- a line

// The kinds of lines, in the order of the totals.
#[derive(Clone, Copy)]
enum Kind {
    Sqrt,
    Exp,
    Ln,
    Erfc,
    Pdf,
    Cdf,
    Price,
    Greeks,
    Solve,
    Quote,
    Build,
    Strike,
    Expiry,
    Cell,
    Read,
    Middle,
    Gap,
    Fill,
    Filled,
}

impl Kind {
    const ALL: [Kind; 19] = [
        Kind::Sqrt,
        Kind::Exp,
        Kind::Ln,
        Kind::Erfc,
        Kind::Pdf,
        Kind::Cdf,
        Kind::Price,
        Kind::Greeks,
        Kind::Solve,
        Kind::Quote,
        Kind::Build,
        Kind::Strike,
        Kind::Expiry,
        Kind::Cell,
        Kind::Read,
        Kind::Middle,
        Kind::Gap,
        Kind::Fill,
        Kind::Filled,
    ];

    // The six bytes that a line of the kind begins with.
    fn name(self) -> [u8; 6] {
        match self {
            Kind::Sqrt => *b"sqrt  ",
            Kind::Exp => *b"exp   ",
            Kind::Ln => *b"ln    ",
            Kind::Erfc => *b"erfc  ",
            Kind::Pdf => *b"pdf   ",
            Kind::Cdf => *b"cdf   ",
            Kind::Price => *b"price ",
            Kind::Greeks => *b"greeks",
            Kind::Solve => *b"solve ",
            Kind::Quote => *b"quote ",
            Kind::Build => *b"build ",
            Kind::Strike => *b"strike",
            Kind::Expiry => *b"expiry",
            Kind::Cell => *b"cell  ",
            Kind::Read => *b"read  ",
            Kind::Middle => *b"middle",
            Kind::Gap => *b"gap   ",
            Kind::Fill => *b"fill  ",
            Kind::Filled => *b"filled",
        }
    }

    // How many words follow.
    fn width(self) -> usize
        ensures { result ≤ 14 }
    {
        match self {
            Kind::Greeks => 14,
            Kind::Solve => 12,
            Kind::Price => 8,
            Kind::Read => 4,
            Kind::Quote | Kind::Build | Kind::Cell | Kind::Middle | Kind::Fill => 3,
            _ => 2,
        }
    }
}

// The six bytes are the name of no kind.
#[derive(Clone, Copy)]
struct Nameless;

impl TryFrom<[u8; 6]> for Kind {
    type Error = Nameless;

    fn try_from(head: [u8; 6]) -> Result<Kind, Nameless> {
        Kind::ALL
            .iter()
            .copied()
            .find(|kind| kind.name() == head)
            .ok_or(Nameless)
    }
}

// Of a line of no kind two words are read.
fn width_of(kind: Option<Kind>) -> usize
    ensures { result ≤ 14 }
{
    match kind {
        Some(kind) => kind.width(),
        None => 2,
    }
}

// A line as it was read; its kind is none where it cannot be read.
#[derive(Clone, Copy)]
struct Line {
    kind: Option<Kind>,
    head: [u8; 6],
    words: [u8; 240],
}

// The next line; none where the list has ended.
fn read_line() -> Option<Line> {
    let mut head = [b' '; 6];
    let mut words = [b' '; 240];
    if io::read_full(STDIN_FILENO, &mut head) == 0 {
        return None;
    }
    let kind = Kind::try_from(head).ok();
    let end = 17 * width_of(kind) + 1;
    let got = io::read_full(STDIN_FILENO, &mut words[..end]);
    let is_whole = got == end && words[end - 1] == b'\n';
    Some(Line {
        kind: if is_whole { kind } else { None },
        head,
        words,
    })
}

// Whether the words to come are those of an answer.
fn answers(words: &mut Words<'_>, answer: &[u64]) -> bool {
    answer.iter().all(|n| words.word() == *n)
}

// ---- functions and options

// What an answer's words are stands in slips as well, for ./quote: the sample's format is its own, and this test stands apart from ./quote's words.

fn judge_function<F: Fn(f64) -> f64>(words: &mut Words<'_>, f: F) -> bool
    requires { F.IsAlwaysCallable f }
{
    let value = f(words.float());
    answers(words, &[bits_of(value)])
}

// 0 for a call. No `TryFrom`: neither type is of this crate.
fn option_type(words: &mut Words<'_>) -> OptionType {
    match words.word() {
        0 => OptionType::Call,
        _ => OptionType::Put,
    }
}

// Spot, strike, expiry and rate of an option; its volatility is 0.
fn option(words: &mut Words<'_>, option_type: OptionType) -> OptionParams {
    OptionParams {
        spot: words.float(),
        strike: words.float(),
        time_to_expiry: words.float(),
        risk_free_rate: words.float(),
        volatility: 0.0,
        option_type,
    }
}

// The option of a price or of greeks, with its volatility.
fn priced_option(words: &mut Words<'_>) -> OptionParams {
    let option_type = option_type(words);
    let params = option(words, option_type);
    OptionParams {
        volatility: words.float(),
        ..params
    }
}

fn judge_value(words: &mut Words<'_>, answer: Result<f64, Refusal>) -> bool {
    answers(words, &[number_of(answer), bits_of(answer.unwrap_or(0.0))])
}

fn judge_price(words: &mut Words<'_>) -> bool {
    let price = greeks::bsm_price(priced_option(words));
    judge_value(words, price)
}

fn judge_greeks(words: &mut Words<'_>) -> bool {
    let greeks = greeks::bsm_greeks(priced_option(words));
    let g = greeks.unwrap_or_default();
    let answer = [
        number_of(greeks),
        bits_of(g.delta),
        bits_of(g.gamma),
        bits_of(g.theta),
        bits_of(g.vega),
        bits_of(g.rho),
        bits_of(g.vanna),
        bits_of(g.volga),
    ];
    answers(words, &answer)
}

// A number, four values and the evaluations.
fn solve_words(solved: Result<Solution, Unsolved>) -> [u64; 6] {
    match solved {
        Ok(x) => [
            0,
            bits_of(x.volatility),
            bits_of(x.error),
            bits_of(x.c),
            bits_of(x.c_error),
            x.evaluations,
        ],
        Err(x) => [u64::from(x.refusal), 0, 0, 0, 0, x.evaluations],
    }
}

fn judge_solve(words: &mut Words<'_>) -> bool {
    let option_type = option_type(words);
    let market = words.float();
    let params = option(words, option_type);
    answers(
        words,
        &solve_words(greeks::implied_volatility(market, params)),
    )
}

// ---- a surface

// The quotes that wait for a build, and what the last one left. Columns of their own, since a build is lent three slices, as the C interface lends them.
// surface_test has the same arrays, and `surface` stands there and in blotter too. No crate that all three see has admission, chart and readings, as one that
// held them would: vectors is seen by the tests of the lowest crates, and a crate of its own would be public, with contracts and edits, for a few lines.
#[derive(Drop)]
struct Sheet {
    strikes: [f64; 1024],
    expiries: [f64; 1024],
    volatilities: [f64; 1024],
    quotes: usize,
    strike_axis: [f64; 64],
    expiry_axis: [f64; 32],
    grid: [f64; 2048],
    counts: [u64; 2048],
    lengths: Lengths,
}

// Whether an axis holds the line's value at the line's index.
fn judge_axis(words: &mut Words<'_>, axis: &[f64]) -> bool {
    match axis.get(words.word() as usize) {
        Some(x) => answers(words, &[bits_of(*x)]),
        None => false,
    }
}

impl Sheet {
    fn empty() -> Sheet {
        Sheet {
            strikes: [0.0; 1024],
            expiries: [0.0; 1024],
            volatilities: [0.0; 1024],
            quotes: 0,
            strike_axis: [0.0; 64],
            expiry_axis: [0.0; 32],
            grid: [0.0; 2048],
            counts: [0; 2048],
            lengths: Lengths::default(),
        }
    }

    // A quote goes to the end of the columns. One test serves all three: a `get_mut` for each would be no plainer.
    fn quote(&mut self, words: &mut Words<'_>) {
        let at = self.quotes;
        if at < 1024 {
            self.strikes[at] = words.float();
            self.expiries[at] = words.float();
            self.volatilities[at] = words.float();
            self.quotes = at + 1;
        }
    }

    // Of the quotes that wait, of which none is left.
    fn build(&mut self) -> Result<Lengths, Refusal> {
        let quotes = Quotes {
            strikes: &self.strikes,
            expiries: &self.expiries,
            volatilities: &self.volatilities,
        };
        let mut buffers = SurfaceBuffers {
            strike_axis: &mut self.strike_axis,
            expiry_axis: &mut self.expiry_axis,
            grid: &mut self.grid,
            counts: &mut self.counts,
        };
        let built = surface::build(&quotes, self.quotes as u64, &mut buffers);
        self.quotes = 0;
        self.lengths = built.unwrap_or_default();
        built
    }

    fn judge_build(&mut self, words: &mut Words<'_>) -> bool {
        let built = self.build();
        let lengths = self.lengths;
        answers(
            words,
            &[
                number_of(built),
                lengths.strikes as u64,
                lengths.expiries as u64,
            ],
        )
    }

    fn surface(&self) -> Surface<'_> {
        Surface {
            strike_axis: &self.strike_axis,
            expiry_axis: &self.expiry_axis,
            grid: &self.grid,
            strikes: self.lengths.strikes,
            expiries: self.lengths.expiries,
        }
    }

    fn judge_cell(&self, words: &mut Words<'_>) -> bool {
        let at = words.word() as usize;
        match (self.grid.get(at), self.counts.get(at)) {
            (Some(x), Some(count)) => answers(words, &[bits_of(*x), *count]),
            _ => false,
        }
    }

    fn judge_read(&self, words: &mut Words<'_>) -> bool {
        let strike = words.float();
        let expiry = words.float();
        judge_value(words, self.surface().interpolate(strike, expiry))
    }

    fn judge_middle(&self, words: &mut Words<'_>) -> bool {
        let expiry = words.float();
        judge_value(words, self.surface().middle_strike(expiry))
    }
}

// ---- the gap filler

fn gap(words: &mut Words<'_>, cells: &mut [f64]) {
    if let Some(cell) = cells.get_mut(words.word() as usize) {
        *cell = words.float();
    }
}

fn judge_filling(words: &mut Words<'_>, cells: &mut [f64]) -> bool {
    let strikes = words.word() as usize;
    let expiries = words.word() as usize;
    let filled = filler::fill_gaps(cells, strikes, expiries);
    answers(words, &[number_of(filled)])
}

// ---- the list

// One line: whether its answer is the right one; none where it brings an input.
fn turn(
    kind: Kind,
    words: &mut Words<'_>,
    sheet: &mut Sheet,
    cells: &mut [f64; 2048],
) -> Option<bool> {
    let right = match kind {
        Kind::Sqrt => judge_function(words, root::sqrt),
        Kind::Exp => judge_function(words, exponential::exp),
        Kind::Ln => judge_function(words, exponential::ln),
        Kind::Erfc => judge_function(words, normal::erfc),
        Kind::Pdf => judge_function(words, normal::pdf),
        Kind::Cdf => judge_function(words, normal::cdf),
        Kind::Price => judge_price(words),
        Kind::Greeks => judge_greeks(words),
        Kind::Solve => judge_solve(words),
        Kind::Quote => {
            sheet.quote(words);
            return None;
        }
        Kind::Build => sheet.judge_build(words),
        Kind::Strike => judge_axis(words, &sheet.strike_axis),
        Kind::Expiry => judge_axis(words, &sheet.expiry_axis),
        Kind::Cell => sheet.judge_cell(words),
        Kind::Read => sheet.judge_read(words),
        Kind::Middle => sheet.judge_middle(words),
        Kind::Gap => {
            gap(words, cells);
            return None;
        }
        Kind::Fill => judge_filling(words, cells),
        Kind::Filled => judge_axis(words, cells),
    };
    Some(right)
}

// Writes a line out with its number.
fn report(number: u64, line: &Line) {
    io::write_all(STDOUT_FILENO, b"MISMATCH in line ");
    io::print_decimal(STDOUT_FILENO, number);
    io::write_all(STDOUT_FILENO, b": ");
    io::write_all(STDOUT_FILENO, &line.head);
    io::write_all(STDOUT_FILENO, &line.words[..17 * width_of(line.kind)]);
    io::write_all(STDOUT_FILENO, b"\n");
}

fn print_total(name: &[u8; 6], tally: Tally) {
    if tally.is_empty() {
        return;
    }
    io::write_all(STDOUT_FILENO, name);
    io::write_all(STDOUT_FILENO, b" ");
    tally.print();
}

fn print_totals(tallies: [Tally; 19], unreadable: Tally) {
    for (kind, tally) in Kind::ALL.iter().zip(tallies) {
        print_total(&kind.name(), tally);
    }
    print_total(b"none  ", unreadable);
}

fn main() {
    let mut sheet = Sheet::empty();
    let mut cells = [0.0; 2048];
    let mut tallies = [Tally::default(); 19];
    let mut unreadable = Tally::default();
    for (number, line) in (1..100001).zip(iter::from_fn(read_line)) {
        let Some(kind) = line.kind else {
            unreadable.count(false);
            report(number, &line);
            break;
        };
        let mut words = Words {
            text: &line.words[1..],
        };
        if let Some(right) = turn(kind, &mut words, &mut sheet, &mut cells) {
            tallies[kind as usize].count(right);
            if !right {
                report(number, &line);
            }
        }
    }
    print_totals(tallies, unreadable);
}
