// The program that `./quote` asks: a line a request, answered by the proved calls with all that they hand out.
// A line is a name of six characters, padded with spaces, then for each word a space and 16 upper-case hexadecimal digits: a float's bits, or a number.
// What a name and its words ask, and which figure stands at which place of an answer, is crate `wording`'s. An answer has the request's name; behind a build's
// come the values of its axes and, row by row, its cells. Any other line is answered by a question mark.
// Proved is that it returns and does nothing undefined. No theorem is about the whole input: that each line is answered, once and in order, is held by the
// program's run, and so is what it reads and writes.
#![tactic(auto)]

ghost use Rattle.std.specs.Prelude.{◌≤◌, length};

use admission::SurfaceBuffers;
use arrayvec::ArrayVec;
use blackscholes::{OptionParams, OptionType};
use book::QuoteColumns;
use chart::Lengths;
use frames::bits_of;
use ledger::{Book, Opening};
use readings::Surface;
use std::io::{Read, Stdin};
use wording::Request;

const STDOUT_FILENO: i32 = 1;

const STDERR_FILENO: i32 = 2;

// Why the program ends before its input does.
#[derive(Clone, Copy)]
enum Failure {
    Read,
    Write,
}

// ---- a line written

// A line of a name and at most eight words, in one write.
fn say(name: &[u8; 6], words: &[u64]) -> Result<(), Failure>
    requires { length words.now ≤ 8 }
{
    let mut text = [b' '; 143];
    text[..6].copy_from_slice(name);
    for (place, &word) in text[6..].chunks_exact_mut(17).zip(words) {
        place[1..].copy_from_slice(&frames::digits_of(word));
    }
    let end = 6 + 17 * words.len();
    text[end] = b'\n';
    if io::write_all(STDOUT_FILENO, &text[..end + 1]) {
        Ok(())
    } else {
        Err(Failure::Write)
    }
}

// ---- a line's request

// A word's text: a space, then 16 digits.
fn word_of(text: &[u8]) -> Option<u64> {
    let [b' ', digits @ ..] = text else {
        return None;
    };
    if !digits.iter().all(|&b| frames::is_digit(b)) {
        return None;
    }
    frames::word_of(digits)
}

// A line's name and what it asks. No request has more than six words.
fn asked(line: &[u8]) -> Option<(&[u8; 6], Request)> {
    let (name, text) = line.split_first_chunk::<6>()?;
    let mut words = ArrayVec::<u64, 6>::new();
    for word in text.chunks(17) {
        words.try_push(word_of(word)?).ok()?;
    }
    let request = requests::request_of(name, words.as_slice())?;
    Some((name, request))
}

// ---- a line answered

fn say_axis(name: &[u8; 6], axis: &[f64]) -> Result<(), Failure> {
    for &value in axis {
        say(name, &[bits_of(value)])?;
    }
    Ok(())
}

// Each value with its count.
fn say_row(row: &[f64], counts: &[u64]) -> Result<(), Failure> {
    for (&value, &count) in row.iter().zip(counts) {
        say(b"cell  ", &slips::cell_words(value, count))?;
    }
    Ok(())
}

// The book with its quotes, and the surface built last with the lengths of its axes.
#[derive(Drop)]
struct Blotter<'a> {
    book: Book,
    columns: QuoteColumns<'a>,
    buffers: SurfaceBuffers<'a>,
    lengths: Lengths,
}

impl Blotter<'_> {
    // Before any build it has no axis. Why no crate shares it with the tests is said at replay's `Sheet`.
    fn surface(&self) -> Surface<'_> {
        Surface {
            strike_axis: self.buffers.strike_axis,
            expiry_axis: self.buffers.expiry_axis,
            grid: self.buffers.grid,
            strikes: self.lengths.strikes,
            expiries: self.lengths.expiries,
        }
    }

    // An option on the book's spot and rate.
    fn on_book(&self, kind: OptionType, strike: f64, expiry: f64) -> OptionParams {
        OptionParams {
            spot: self.book.spot,
            strike,
            time_to_expiry: expiry,
            risk_free_rate: self.book.rate,
            volatility: 0.0,
            option_type: kind,
        }
    }

    // No surface is built of a book that was opened anew. Where that is refused the book is closed: 0.0 is no spot.
    fn open(&mut self, opening: Opening) -> [u64; 1] {
        self.lengths = Lengths::default();
        match book::open(opening) {
            Ok(book) => {
                self.book = book;
                [0]
            }
            Err(unopened) => {
                self.book = unopened.book;
                [u64::from(unopened.refusal)]
            }
        }
    }

    fn build(&mut self) -> [u64; 3] {
        let built = book::build(self.book, &self.columns.quotes(), &mut self.buffers);
        self.lengths = built.unwrap_or_default();
        slips::build_words(built)
    }

    // Both axes, then the cells in use: a row has 64 places.
    fn say_surface(&self) -> Result<(), Failure> {
        let surface = self.surface();
        say_axis(b"strike", surface.strikes_in_use())?;
        say_axis(b"expiry", surface.expiries_in_use())?;
        let rows = surface.grid.chunks(64);
        let cells = rows.zip(self.buffers.counts.chunks(64));
        for (row, counts) in cells.take(surface.expiries) {
            say_row(row.get(..surface.strikes).unwrap_or(row), counts)?;
        }
        Ok(())
    }

    fn answer(&mut self, name: &[u8; 6], request: Request) -> Result<(), Failure> {
        match request {
            Request::Open(opening) => say(name, &self.open(opening)),
            Request::Offer(offer) => {
                let heard = book::offer(self.book, offer, &mut self.columns);
                self.book = heard.book;
                say(name, &slips::offer_words(heard.answer))
            }
            Request::Build => {
                say(name, &self.build())?;
                self.say_surface()
            }
            Request::Read { strike, expiry } => {
                let answer = self.surface().interpolate(strike, expiry);
                say(name, &slips::value_words(answer))
            }
            Request::Money { expiry } => {
                let answer = money::at_the_money(self.book, &self.surface(), expiry);
                say(name, &slips::money_words(answer))
            }
            Request::Price(option) => say(name, &slips::price_words(option)),
            Request::Greeks(option) => say(name, &slips::greeks_words(option)),
            Request::Ends {
                kind,
                strike,
                expiry,
                market,
            } => say(
                name,
                &slips::ends_words(market, self.on_book(kind, strike, expiry)),
            ),
        }
    }

    // A line of the input, without its line feed.
    fn hear(&mut self, line: &[u8]) -> Result<(), Failure> {
        match asked(line) {
            Some((name, request)) => self.answer(name, request),
            None => say(b"?     ", &[]),
        }
    }
}

// ---- lines in the input

// So much of a line as has come. Six words end at the 108th byte: a 109th says that the line is too long, and no later one is held.
type Line = ArrayVec<u8, 109>;

// What was read is taken byte by byte, and each line that it ends is heard.
fn take(input: &[u8], line: &mut Line, blotter: &mut Blotter<'_>) -> Result<(), Failure> {
    for &b in input {
        if b == b'\n' {
            blotter.hear(line.as_slice())?;
            line.clear();
        } else if !line.is_full() {
            line.push(b);
        }
    }
    Ok(())
}

// What a read gave: nothing at the end of the input.
fn read_some(mut stdin: Stdin, input: &mut [u8]) -> Result<&[u8], Failure> {
    let count = stdin.read(input).map_err(|_| Failure::Read)?;
    Ok(&input[..count])
}

// A buffer of its own, in fixed memory: std's reader of lines takes a pipe byte by byte, and its `BufReader` allocates.
// Nothing says that an input ends, so the turns are counted, up to a number that no run comes to.
fn serve(stdin: Stdin, blotter: &mut Blotter<'_>) -> Result<(), Failure> {
    let mut input = [0; 65536];
    let mut line = Line::new();
    for _ in 0..u64::MAX {
        let part = read_some(stdin, &mut input)?;
        if part.is_empty() && line.is_empty() {
            break;
        }
        // At the end of the input a line that lacks its line feed gets it.
        take(
            if part.is_empty() { b"\n" } else { part },
            &mut line,
            blotter,
        )?;
    }
    Ok(())
}

fn main(rt: HostRuntime) {
    let mut blotter = Blotter {
        book: book::zero_book(),
        columns: QuoteColumns {
            strikes: &mut [0.0; 1024],
            expiries: &mut [0.0; 1024],
            volatilities: &mut [0.0; 1024],
        },
        buffers: SurfaceBuffers {
            strike_axis: &mut [0.0; 64],
            expiry_axis: &mut [0.0; 32],
            grid: &mut [0.0; 2048],
            counts: &mut [0; 2048],
        },
        lengths: Lengths::default(),
    };
    if let Err(failure) = serve(rt.stdin(), &mut blotter) {
        // No `Display`: the text is bytes, for one write.
        let message: &[u8] = match failure {
            Failure::Read => b"blotter: cannot read\n",
            Failure::Write => b"blotter: cannot write\n",
        };
        io::write_all(STDERR_FILENO, message);
    }
}
