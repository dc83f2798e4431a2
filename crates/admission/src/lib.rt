// What turns a build down: 1, 2 and 15 of what is lent, 16 and 17 of the axes' lengths.
#![tactic(auto)]

ghost use Rattle.std.specs.Prelude.{◌≡◌, ◌&&◌, ◌||◌, ltb, take};
ghost use Rattle.limits.specs.Ranges.{is_strike, is_expiry, is_volatility};
ghost use Rattle.limits.specs.Checks.{none};
ghost use Rattle.limits.specs.Refusals.{number_in};
ghost use Rattle.chart.specs.Quotes.{first_of, all_entries};
ghost use Rattle.chart.specs.Build.{is_small};
ghost use Rattle.chart.specs.Steps.{number_by, axes_refusal};
ghost use Rattle.admission.specs.Lent.{columns_in, buffers_in};

use limits::{Refusal, check};

// The quotes of a build: a column of strikes, of expiries and of volatilities. They are several slices, and no slice of records, since the C interface
// lends them so.
#[derive(Clone, Copy)]
pub struct Quotes<'a> {
    pub strikes: &'a [f64],
    pub expiries: &'a [f64],
    pub volatilities: &'a [f64],
}

// Where a surface is written: both axes, the cells, their counts, in slices of their own, as the C interface lends them. That a call leaves the same memory
// lent is a clause of each (`SameBuffers`): it speaks of before and after, where a field or an invariant speaks of one moment.
#[derive(Drop)]
pub struct SurfaceBuffers<'a> {
    pub strike_axis: &'a mut [f64],
    pub expiry_axis: &'a mut [f64],
    pub grid: &'a mut [f64],
    pub counts: &'a mut [u64],
}

impl<'a> Quotes<'a> {
    // The first n of each column, or all where there are fewer.
    pub fn first(&self, n: usize) -> Quotes<'a>
        ensures { columns_in result ≡ first_of (columns_in self.now) n }
    {
        Quotes {
            strikes: front(self.strikes, n),
            expiries: front(self.expiries, n),
            volatilities: front(self.volatilities, n),
        }
    }
}

// readings cuts its axes so too: one function for both crates would be public, with a contract and an edit, for one line.
#[tactic(auto, using(std::proofs::lemmas::List::take_min))]
fn front<'a>(column: &'a [f64], n: usize) -> &'a [f64]
    ensures { result.now ≡ take n column.now }
{
    &column[..n.min(column.len())]
}

fn is_quote(strike: f64, expiry: f64, volatility: f64) -> bool
    ensures { result ≡ (is_strike strike && is_expiry expiry && is_volatility volatility) }
{
    limits::is_strike(strike) && limits::is_expiry(expiry) && limits::is_volatility(volatility)
}

#[tactic(auto, unfolding(chart::specs::Quotes::all_entries))]
fn are_quotes(quotes: &Quotes<'_>) -> bool
    ensures { result ≡ all_entries (columns_in quotes.now) }
{
    quotes
        .strikes
        .iter()
        .zip(quotes.expiries)
        .zip(quotes.volatilities)
        .all(|((strike, expiry), volatility)| is_quote(*strike, *expiry, *volatility))
}

// 1, 2 and 15: what can be said before there are axes. `small` is whether 15 holds: a flag and no buffers, since this call never asked for any.
// An entry is read only where the columns have it, so 1, and 2 of the number kept, are told first.
#[tactic(auto, unfolding(chart::specs::Quotes::is_short, chart::specs::Build::is_wrong, limits::specs::Checks::first))]
pub fn check_quotes(quotes: &Quotes<'_>, kept: u64, small: bool) -> Result<(), Refusal>
    ensures { number_in result ≡ number_by (columns_in quotes.now) kept small none }
{
    let long = quotes.strikes.len() >= 1024
        && quotes.expiries.len() >= 1024
        && quotes.volatilities.len() >= 1024;
    check(long, Refusal::ShortColumn)?;
    check(kept <= 1024, Refusal::OutOfBounds)?;
    let ranged = are_quotes(&quotes.first(kept as usize));
    check(ranged, Refusal::OutOfBounds)?;
    check(!small, Refusal::ShortBuffer)
}

// 16 and 17, of the axes' lengths.
#[tactic(auto, unfolding(limits::specs::Checks::first))]
pub fn check_axes(strikes: usize, expiries: usize) -> Result<(), Refusal>
    ensures { number_in result ≡ axes_refusal strikes expiries }
{
    check(strikes <= 64, Refusal::TooManyStrikes)?;
    check(expiries <= 32, Refusal::TooManyExpiries)
}

// 15, of the lengths of the four buffers, for one who has them and no buffers.
pub fn is_small(strikes: usize, expiries: usize, grid: usize, counts: usize) -> bool
    ensures { result ≡ (ltb strikes 64 || ltb expiries 32 || ltb grid 2048 || ltb counts 2048) }
{
    strikes < 64 || expiries < 32 || grid < 2048 || counts < 2048
}

impl SurfaceBuffers<'_> {
    // 15
    #[tactic(auto, unfolding(chart::specs::Build::is_small))]
    pub fn is_small(&self) -> bool
        ensures { result ≡ is_small (buffers_in self.now) }
    {
        is_small(
            self.strike_axis.len(),
            self.expiry_axis.len(),
            self.grid.len(),
            self.counts.len(),
        )
    }
}
