// Replays the vectors of vectors.py: reads calls as words of 16 hexadecimal digits, one a line, makes them, and writes what comes back, a word a line.
// A call is the number of its words, its kind, and what the functions `run_..` say. Every entry of every lent buffer goes into a digest, in use or not.
#![tactic(auto)]

ghost use Rattle.std.specs.Prelude.{◌≤◌};

use admission::{Quotes, SurfaceBuffers};
use chart::Lengths;
use frames::bits_of;
use ledger::{Book, Money, Opening};
use limits::Refusal;
use outcomes::number_of;
use readings::Surface;
use std::iter;
use vectors::Words;

const STDIN_FILENO: i32 = 0;

const STDOUT_FILENO: i32 = 1;

// ---- words in and out

// What an answer's words are stands in slips as well, for ./quote: the vectors' format is their own, and this test stands apart from ./quote's words.

// The next word as a number of at most `most`.
fn number(words: &mut Words<'_>, most: usize) -> usize
    ensures { result ≤ most }
{
    words.word().min(most as u64) as usize
}

fn say(n: u64) {
    io::print_hex(STDOUT_FILENO, n, 16);
    io::write_all(STDOUT_FILENO, b"\n");
}

fn say_all(words: &[u64]) {
    for n in words {
        say(*n);
    }
}

fn mixed(digest: u64, n: u64) -> u64 {
    (digest.rotate_left(5) ^ n).wrapping_add(0x9E3779B97F4A7C15)
}

// A digest of the words of the entries.
fn say_digest<T: Copy, F: Fn(T) -> u64>(entries: &[T], word: F)
    requires { F.IsAlwaysCallable word }
{
    let mut digest = 0;
    for entry in entries {
        digest = mixed(digest, word(*entry));
    }
    say(digest);
}

fn say_axis(axis: &[f64]) {
    for x in axis {
        say(bits_of(*x));
    }
}

// ---- what is lent

// Columns of quotes, of which the first are filled. They are lent as three slices, as the C interface lends them. Why no crate holds them for replay too, and
// the buffers and `surface`, is said at its `Sheet`.
#[derive(Drop)]
struct Columns {
    strikes: [f64; 1024],
    expiries: [f64; 1024],
    volatilities: [f64; 1024],
}

impl Columns {
    // The words to come are the first n quotes.
    fn read(words: &mut Words<'_>, n: usize) -> Columns {
        let mut columns = Columns {
            strikes: [0.0; 1024],
            expiries: [0.0; 1024],
            volatilities: [0.0; 1024],
        };
        let options = columns.strikes.iter_mut().zip(&mut columns.expiries);
        let quotes = options.zip(&mut columns.volatilities);
        for ((strike, expiry), volatility) in quotes.take(n) {
            *strike = words.float();
            *expiry = words.float();
            *volatility = words.float();
        }
        columns
    }
}

// The buffers of a surface, which hold 7 everywhere at first.
#[derive(Drop)]
struct Buffers {
    strike_axis: [f64; 64],
    expiry_axis: [f64; 32],
    grid: [f64; 2048],
    counts: [u64; 2048],
}

impl Buffers {
    fn fresh() -> Buffers {
        Buffers {
            strike_axis: [7.0; 64],
            expiry_axis: [7.0; 32],
            grid: [7.0; 2048],
            counts: [7; 2048],
        }
    }

    fn surface(&self, lengths: Lengths) -> Surface<'_> {
        Surface {
            strike_axis: &self.strike_axis,
            expiry_axis: &self.expiry_axis,
            grid: &self.grid,
            strikes: lengths.strikes,
            expiries: lengths.expiries,
        }
    }

    fn say_digests(&self) {
        say_digest(&self.strike_axis, bits_of);
        say_digest(&self.expiry_axis, bits_of);
        say_digest(&self.grid, bits_of);
        say_digest(&self.counts, |n| n);
    }

    // The cells of a small surface, each with its count.
    fn say_cells(&self, lengths: Lengths) {
        let rows = self.grid.chunks(64).zip(self.counts.chunks(64));
        for (row, counts) in rows.take(lengths.expiries) {
            say_row(row.get(..lengths.strikes).unwrap_or(row), counts);
        }
    }
}

// The cells of a row, each with its count.
fn say_row(row: &[f64], counts: &[u64]) {
    for (x, count) in row.iter().zip(counts) {
        say_all(&[bits_of(*x), *count]);
    }
}

// Puts n floats at their places in a buffer: pairs of words.
fn poke(buffer: &mut [f64], words: &mut Words<'_>, n: usize) {
    for _ in 0..n {
        let at = words.word() as usize;
        let x = words.float();
        if let Some(place) = buffer.get_mut(at) {
            *place = x;
        }
    }
}

// ---- readings

fn say_reading(reading: Result<f64, Refusal>) {
    say_all(&[number_of(reading), bits_of(reading.unwrap_or(0.0))]);
}

// n reads: a kind, a strike and an expiry each.
fn reads(surface: &Surface<'_>, words: &mut Words<'_>, n: usize) {
    for _ in 0..n {
        let kind = words.word();
        let strike = words.float();
        let expiry = words.float();
        say_reading(match kind {
            0 => surface.interpolate(strike, expiry),
            _ => surface.middle_strike(expiry),
        });
    }
}

fn say_money(read: Result<Money, Refusal>) {
    let money = read.unwrap_or_default();
    say_all(&[
        number_of(read),
        bits_of(money.strike),
        bits_of(money.volatility),
    ]);
}

// A record: spot, rate, kept, refused, heard, evaluations.
fn record(words: &mut Words<'_>) -> Book {
    let opening = Opening {
        spot: words.float(),
        rate: words.float(),
    };
    let totals = [words.word(), words.word(), words.word(), words.word()];
    rows::book_of(opening, totals)
}

// n reads at the money: a record and an expiry each.
fn moneys(surface: &Surface<'_>, words: &mut Words<'_>, n: usize) {
    for _ in 0..n {
        let book = record(words);
        let expiry = words.float();
        say_money(money::at_the_money(book, surface, expiry));
    }
}

// ---- the calls

// 1: how many entries are lent of the three columns, the count, how many of the four buffers, m, r; m quotes; r reads of the surface.
fn run_build(words: &mut Words<'_>) {
    let strikes = number(words, 1024);
    let expiries = number(words, 1024);
    let volatilities = number(words, 1024);
    let count = words.word();
    let strike_axis = number(words, 64);
    let expiry_axis = number(words, 32);
    let grid = number(words, 2048);
    let counts = number(words, 2048);
    let m = number(words, 1024);
    let r = number(words, 1024);
    let columns = Columns::read(words, m);
    let mut buffers = Buffers::fresh();
    let quotes = Quotes {
        strikes: &columns.strikes[..strikes],
        expiries: &columns.expiries[..expiries],
        volatilities: &columns.volatilities[..volatilities],
    };
    let mut lent = SurfaceBuffers {
        strike_axis: &mut buffers.strike_axis[..strike_axis],
        expiry_axis: &mut buffers.expiry_axis[..expiry_axis],
        grid: &mut buffers.grid[..grid],
        counts: &mut buffers.counts[..counts],
    };
    let built = surface::build(&quotes, count, &mut lent);
    buffers.say_digests();
    say_built(built, &buffers, words, r);
}

// The number, or the surface and r reads of it.
fn say_built(built: Result<Lengths, Refusal>, buffers: &Buffers, words: &mut Words<'_>, r: usize) {
    say(number_of(built));
    let Ok(lengths) = built else {
        return;
    };
    say_all(&[lengths.strikes as u64, lengths.expiries as u64]);
    let surface = buffers.surface(lengths);
    say_axis(surface.strikes_in_use());
    say_axis(surface.expiries_in_use());
    if lengths.strikes < 9 {
        buffers.say_cells(lengths);
    }
    reads(&surface, words, r);
}

// 2: strikes, expiries, how much of the grid is lent, m; m cells by place. Every other cell is 7.
fn run_fill(words: &mut Words<'_>) {
    let strikes = number(words, 4096);
    let expiries = number(words, 4096);
    let lent = number(words, 2048);
    let m = number(words, 4096);
    let mut grid = [7.0; 2048];
    poke(&mut grid, words, m);
    say(number_of(filler::fill_gaps(&mut grid[..lent], strikes, expiries)));
    say_digest(&grid, bits_of);
}

// 3: strikes, expiries, how much of both axes and of the grid is lent, three numbers of pokes, r; the pokes of the axes and the grid; r reads.
// 4: the same, with reads at the money.
fn run_reads<F: Fn(&Surface<'_>, &mut Words<'_>, usize)>(words: &mut Words<'_>, read: F)
    requires { F.IsAlwaysCallable read }
{
    let strikes = number(words, 4096);
    let expiries = number(words, 4096);
    let strike_axis = number(words, 64);
    let expiry_axis = number(words, 32);
    let grid = number(words, 2048);
    let pokes = [number(words, 64), number(words, 64), number(words, 4096)];
    let r = number(words, 1024);
    let mut buffers = Buffers::fresh();
    poke(&mut buffers.strike_axis, words, pokes[0]);
    poke(&mut buffers.expiry_axis, words, pokes[1]);
    poke(&mut buffers.grid, words, pokes[2]);
    let surface = Surface {
        strike_axis: &buffers.strike_axis[..strike_axis],
        expiry_axis: &buffers.expiry_axis[..expiry_axis],
        grid: &buffers.grid[..grid],
        strikes,
        expiries,
    };
    read(&surface, words, r);
}

fn command(input: &[u8]) {
    let mut words = Words { text: input };
    match words.word() {
        1 => run_build(&mut words),
        2 => run_fill(&mut words),
        4 => run_reads(&mut words, moneys),
        _ => run_reads(&mut words, reads),
    }
}

// Reads the words of a call, and makes it.
fn call(input: &mut [u8]) {
    io::read_full(STDIN_FILENO, input);
    command(input);
}

// A call's number of words; 0 at the end. Of a head that is cut off what came counts, with zero bytes behind it.
fn size() -> usize
    ensures { result ≤ 3855 }
{
    let mut head = [0; 17];
    io::read_full(STDIN_FILENO, &mut head);
    number(&mut Words { text: &head }, 3855)
}

fn main() {
    let mut space = io::large_buffer();
    for words in iter::repeat_with(size).take(100000) {
        if words == 0 {
            break;
        }
        call(&mut space[..17 * words]);
    }
}
