// The library for hosts: the calls of the crates below under C names, on numbers and lent memory. A call returns 0, or document 01's number.
// A slice is passed as a pointer and then its length; a `&mut` to a number or to an array, as a pointer. The C interface needs what goes together elsewhere,
// an option, an opening, a surface, offers and their answers, columns and buffers, as parameters of their own; an answer's number and its values likewise.
// Each call makes their struct: a function for that would take the same parameters.
#![tactic(auto)]

ghost use Rattle.std.specs.Prelude.{◌≡◌};
ghost use Rattle.floats.specs.Operators.{decimal};
ghost use Rattle.root.specs.Root.{SquareRoot};
ghost use Rattle.elementary.specs.Exp.{exp};
ghost use Rattle.elementary.specs.Ln.{ln};
ghost use Rattle.gauss.specs.Erfc.{erfc};
ghost use Rattle.gauss.specs.Normal.{pdf, cdf};
ghost use Rattle.limits.specs.Refusals.{outcome_with};
ghost use Rattle.blackscholes.specs.Checks.{pricing, sensitivities};
ghost use Rattle.blackscholes.specs.Implied.{implied};
ghost use Rattle.grid.specs.Readings.{reading, middle_strike};
ghost use Rattle.ledger.specs.Money.{at_the_money};
ghost use Rattle.gaps.specs.Gaps.{FillsGaps};
ghost use Rattle.ledger.specs.Book.{columns_of, end_of};
ghost use Rattle.ledger.specs.Build.{buffers_of};
ghost use Rattle.trays.specs.Tray.{answers, lent, heard_offers};
ghost use Rattle.host.specs.Answers.{told, over, option_of, greeks_entries, money_entries, written, solved_written};
ghost use Rattle.chart.specs.Build.{no_lengths};
ghost use Rattle.outcomes.specs.Told.{told_outcome};
ghost use Rattle.host.specs.Calls.{book_in, lengths_of, BuildsFor, QuotesFor};

use admission::{Quotes, SurfaceBuffers};
use batch::{Answers, Offers};
use blackscholes::Greeks;
use book::QuoteColumns;
use chart::Lengths;
use ledger::{Money, Opening};
use limits::Refusal;
use outcomes::Numbered;
use readings::Surface;

// ---- the functions of src/normal.rs and what it calls

#[unsafe(no_mangle)]
pub extern "C" fn kite_sqrt(x: f64) -> f64
    ensures { SquareRoot x result }
{
    root::sqrt(x)
}

#[unsafe(no_mangle)]
pub extern "C" fn kite_exp(x: f64) -> f64
    ensures { result ≡ exp x }
{
    exponential::exp(x)
}

#[unsafe(no_mangle)]
pub extern "C" fn kite_ln(x: f64) -> f64
    ensures { result ≡ ln x }
{
    exponential::ln(x)
}

#[unsafe(no_mangle)]
pub extern "C" fn kite_erfc(x: f64) -> f64
    ensures { result ≡ erfc x }
{
    normal::erfc(x)
}

#[unsafe(no_mangle)]
pub extern "C" fn kite_pdf(x: f64) -> f64
    ensures { result ≡ pdf x }
{
    normal::pdf(x)
}

#[unsafe(no_mangle)]
pub extern "C" fn kite_cdf(x: f64) -> f64
    ensures { result ≡ cdf x }
{
    normal::cdf(x)
}

// ---- an answer of one value

// Writes the value, 0.0 beside a refusal, and returns the number.
fn tell(answer: Result<f64, Refusal>, value: &mut f64) -> u64
    ensures { told result value.new ≡ outcome_with (decimal 0 1) answer }
{
    *value = outcomes::values_of(answer, 0.0);
    outcomes::number_of(answer)
}

// ---- an option

// Checks 6 to 10.
#[unsafe(no_mangle)]
pub extern "C" fn kite_bsm_price(
    put: bool,
    spot: f64,
    strike: f64,
    expiry: f64,
    rate: f64,
    volatility: f64,
    price: &mut f64,
) -> u64
    ensures { told result price.new ≡ pricing (option_of put spot strike expiry rate volatility) }
{
    let option = rows::option_of(put, spot, strike, expiry, rate, volatility);
    tell(greeks::bsm_price(option), price)
}

// Checks 6 to 10. Writes delta, gamma, theta, vega, rho, vanna, volga.
#[unsafe(no_mangle)]
pub extern "C" fn kite_bsm_greeks(
    put: bool,
    spot: f64,
    strike: f64,
    expiry: f64,
    rate: f64,
    volatility: f64,
    greeks: &mut [f64; 7],
) -> u64
    ensures { told result greeks.new ≡ over greeks_entries (sensitivities (option_of put spot strike expiry rate volatility)) }
{
    let answer = greeks::bsm_greeks(rows::option_of(put, spot, strike, expiry, rate, volatility));
    let g = outcomes::values_of(answer, Greeks::default());
    *greeks = [g.delta, g.gamma, g.theta, g.vega, g.rho, g.vanna, g.volga];
    outcomes::number_of(answer)
}

// Checks 5 to 9, then solves: 12, 13 (11 never holds: crate bounds).
// Writes the volatility, its error, the opposing point c, its error; and the evaluations made.
#[unsafe(no_mangle)]
pub extern "C" fn kite_implied_volatility(
    put: bool,
    market: f64,
    spot: f64,
    strike: f64,
    expiry: f64,
    rate: f64,
    values: &mut [f64; 4],
    evaluations: &mut u64,
) -> u64
    ensures { told result (written values.new evaluations.new)
        ≡ over solved_written (end_of (implied market (option_of put spot strike expiry rate (decimal 0 1)))) }
{
    let answer = greeks::implied_volatility(
        market,
        rows::option_of(put, spot, strike, expiry, rate, 0.0),
    );
    let numbers = rows::numbers_of(answer);
    *values = rows::evidence_of(answer);
    *evaluations = numbers[1];
    numbers[0]
}

// ---- a surface

// Checks 2 and 15. Not-a-number is a gap.
#[unsafe(no_mangle)]
pub extern "C" fn kite_fill_gaps(grid: &mut [f64], strikes: u64, expiries: u64) -> u64
    ensures { FillsGaps strikes expiries grid.old (told result tt) grid.new }
{
    outcomes::number_of(filler::fill_gaps(grid, strikes as usize, expiries as usize))
}

// Checks 2, 15, 18, 19 and 20.
#[unsafe(no_mangle)]
pub extern "C" fn kite_interpolate(
    strike_axis: &[f64],
    expiry_axis: &[f64],
    grid: &[f64],
    strikes: u64,
    expiries: u64,
    strike: f64,
    expiry: f64,
    volatility: &mut f64,
) -> u64
    ensures { told result volatility.new
        ≡ reading strike_axis.now expiry_axis.now grid.now strikes expiries strike expiry }
{
    let surface = Surface {
        strike_axis,
        expiry_axis,
        grid,
        strikes: strikes as usize,
        expiries: expiries as usize,
    };
    tell(surface.interpolate(strike, expiry), volatility)
}

// The reading at the middle strike.
#[unsafe(no_mangle)]
pub extern "C" fn kite_middle_strike(
    strike_axis: &[f64],
    expiry_axis: &[f64],
    grid: &[f64],
    strikes: u64,
    expiries: u64,
    expiry: f64,
    volatility: &mut f64,
) -> u64
    ensures { told result volatility.new
        ≡ reading strike_axis.now expiry_axis.now grid.now strikes expiries
        (middle_strike strike_axis.now strikes) expiry }
{
    let surface = Surface {
        strike_axis,
        expiry_axis,
        grid,
        strikes: strikes as usize,
        expiries: expiries as usize,
    };
    tell(surface.middle_strike(expiry), volatility)
}

// 2 of the record, then 2, 15, 18 and 20: at the strike nearest the record's spot. Writes the strike and the volatility.
#[unsafe(no_mangle)]
pub extern "C" fn kite_at_the_money(
    spot: f64,
    rate: f64,
    totals: &[u64; 4],
    strike_axis: &[f64],
    expiry_axis: &[f64],
    grid: &[f64],
    strikes: u64,
    expiries: u64,
    expiry: f64,
    values: &mut [f64; 2],
) -> u64
    ensures { told result values.new
        ≡ over money_entries (at_the_money (book_in (record { spot = spot; rate = rate }) totals.now)
        strike_axis.now expiry_axis.now grid.now strikes expiries expiry) }
{
    let surface = Surface {
        strike_axis,
        expiry_axis,
        grid,
        strikes: strikes as usize,
        expiries: expiries as usize,
    };
    let book = rows::book_of(Opening { spot, rate }, *totals);
    let answer = money::at_the_money(book, &surface, expiry);
    let money = outcomes::values_of(answer, Money::default());
    *values = [money.strike, money.volatility];
    outcomes::number_of(answer)
}

#[tactic(auto, unfolding(ledger::specs::Rows::lengths_of))]
fn lengths_of<E: Numbered>(built: Result<Lengths, E>) -> [u64; 2]
    ensures { result ≡ lengths_of (told_outcome E.number_told (λ _. no_lengths) built) }
{
    let lengths = outcomes::values_of(built, Lengths::default());
    [lengths.strikes as u64, lengths.expiries as u64]
}

// Checks 1, 2, 15, 16 and 17. Writes the surface, and both axis lengths.
#[unsafe(no_mangle)]
pub extern "C" fn kite_build(
    strikes: &[f64],
    expiries: &[f64],
    volatilities: &[f64],
    count: u64,
    strike_axis: &mut [f64],
    expiry_axis: &mut [f64],
    grid: &mut [f64],
    counts: &mut [u64],
    lengths: &mut [u64; 2],
) -> u64
    ensures { BuildsFor
        (columns_of strikes.now expiries.now volatilities.now)
        count
        (buffers_of strike_axis.old expiry_axis.old grid.old counts.old)
        result lengths.new
        (buffers_of strike_axis.new expiry_axis.new grid.new counts.new) }
{
    let quotes = Quotes {
        strikes,
        expiries,
        volatilities,
    };
    let mut buffers = SurfaceBuffers {
        strike_axis,
        expiry_axis,
        grid,
        counts,
    };
    let built = surface::build(&quotes, count, &mut buffers);
    *lengths = lengths_of(built);
    outcomes::number_of(built)
}

// ---- a tray

// Opens a fresh book, hears the list, builds. 6 and 9 are the opening's refusals; 1, 15, 16 and 17 the build's. Writes kept, refused, heard and
// evaluations to `totals`; an offer's number (0 for accepted) and evaluations to `numbers`, its volatility, error, point c and error there to `evidence`.
#[unsafe(no_mangle)]
pub extern "C" fn kite_quote_tray(
    spot: f64,
    rate: f64,
    kinds: &[[bool; 2]],
    figures: &[[f64; 3]],
    numbers: &mut [[u64; 2]],
    evidence: &mut [[f64; 4]],
    strikes: &mut [f64],
    expiries: &mut [f64],
    volatilities: &mut [f64],
    strike_axis: &mut [f64],
    expiry_axis: &mut [f64],
    grid: &mut [f64],
    counts: &mut [u64],
    totals: &mut [u64; 4],
    lengths: &mut [u64; 2],
) -> u64
    ensures { QuotesFor (record { spot = spot; rate = rate })
        (heard_offers kinds.now figures.now (answers numbers.old evidence.old))
        (lent (answers numbers.old evidence.old)
        (columns_of strikes.old expiries.old volatilities.old)
        (buffers_of strike_axis.old expiry_axis.old grid.old counts.old))
        result totals.new lengths.new
        (lent (answers numbers.new evidence.new)
        (columns_of strikes.new expiries.new volatilities.new)
        (buffers_of strike_axis.new expiry_axis.new grid.new counts.new)) }
{
    let offers = Offers { kinds, figures };
    let mut answers = Answers { numbers, evidence };
    let mut columns = QuoteColumns {
        strikes,
        expiries,
        volatilities,
    };
    let mut buffers = SurfaceBuffers {
        strike_axis,
        expiry_axis,
        grid,
        counts,
    };
    let opening = Opening { spot, rate };
    let tray = batch::quote_tray(opening, &offers, &mut answers, &mut columns, &mut buffers);
    match tray {
        Ok(tray) => {
            let book = tray.book;
            *totals = [book.kept, book.refused, book.heard, book.evaluations];
            *lengths = lengths_of(tray.built);
            outcomes::number_of(tray.built)
        }
        Err(unopened) => {
            *totals = [0; 4];
            *lengths = [0; 2];
            u64::from(unopened.refusal)
        }
    }
}
