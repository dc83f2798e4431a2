// The readings of a lent grid, of src/options/surface.rs; and the strike nearest a spot, of document 02's S-2.
#![tactic(auto, using(crate::proofs::Definitions::facts), unfolding(crate::proofs::Definitions::opened))]

ghost use Rattle.std.specs.Prelude.{◌≡◌, true, false, ◌&&◌, ◌≤◌, ◌<◌, length, MatchOption, IfOk};
ghost use Rattle.floats.specs.Operators.{◌≺◌};
ghost use Rattle.floats.specs.Values.{finite};
ghost use Rattle.limits.specs.Refusals.{number_in};
ghost use Rattle.grid.specs.Search.{first_where};
ghost use Rattle.grid.specs.Readings.{is_axis, inside, fraction, above, bracket};
ghost use Rattle.grid.specs.Nearest.{away_from, nearest_strike};
ghost use Rattle.grid.specs.Readings.{corners, has_gap, bilinear, middle_strike, read_outcome};
ghost use Rattle.readings.specs.Surface.{refusal_of, reading_of, strikes_of, expiries_of};

use grid::{Corners, Span};
use limits::{Refusal, check};

fn rises(x: f64, y: f64) -> bool
    ensures { result ≡ (finite y && x ≺ y) }
{
    floats::is_finite(y) && x < y
}

// 18.
fn is_axis(axis: &[f64]) -> bool
    ensures { result ≡ is_axis axis.now }
{
    let Some(first) = axis.first() else {
        return false;
    };
    floats::is_finite(*first) && axis.is_sorted_by(|x, y| rises(*x, *y))
}

fn fraction(lo: f64, hi: f64, x: f64) -> f64
    ensures { result ≡ fraction lo hi x }
{
    let span = hi - lo;
    if floats::abs(span) < 1e-15 {
        0.0
    } else {
        (x - lo) / span
    }
}

fn away_from(spot: f64, strike: f64) -> f64
    ensures { result ≡ away_from spot strike }
{
    floats::abs(strike - spot)
}

// The values of an axis.
#[derive(Clone, Copy)]
struct Axis<'a> {
    values: &'a [f64],
    ghost rises: { is_axis values.now ≡ true },
}

impl<'a> Axis<'a> {
    // None where the values are no axis.
    fn of(values: &'a [f64]) -> Option<Axis<'a>>
        ensures { MatchOption result (is_axis values.now ≡ false) (λ axis. axis.values.now ≡ values.now) }
    {
        if is_axis(values) {
            Some(Axis { values })
        } else {
            None
        }
    }

    // 19 and 20.
    fn spans(&self, x: f64) -> bool
        ensures { result ≡ inside self.now.values.now x }
    {
        limits::in_range(self.values[0], self.values[self.values.len() - 1], x)
    }

    // The index of the first value above x, or the length.
    fn first_above(&self, x: f64) -> usize
        ensures { result ≡ first_where (above x) self.now.values.now }
    {
        self.values.partition_point(|v| *v <= x)
    }

    fn bracket(&self, x: f64) -> Span
        ensures value { result ≡ bracket self.now.values.now x }
        ensures within { (result.lower < length self.now.values.now) × (result.upper < length self.now.values.now) }
    {
        let n = self.values.len();
        let pos = self.first_above(x);
        if n == 1 || pos == 0 {
            return Span {
                lower: 0,
                upper: 0,
                fraction: 0.0,
            };
        }
        if n <= pos {
            return Span {
                lower: n - 1,
                upper: n - 1,
                fraction: 0.0,
            };
        }
        let lo = pos - 1;
        Span {
            lower: lo,
            upper: pos,
            fraction: fraction(self.values[lo], self.values[pos], x),
        }
    }

    // The first of the values that none is nearer to the spot than.
    fn nearest(&self, spot: f64) -> f64
        ensures { result ≡ nearest_strike spot self.now.values.now }
    {
        let mut nearest = self.values[0];
        for strike in self.values {
            if away_from(spot, *strike) < away_from(spot, nearest) {
                nearest = *strike;
            }
        }
        nearest
    }
}

fn corner_cells(grid: &[f64], s: Span, e: Span) -> Corners
    requires { (2048 ≤ length grid.now) × (s.lower < 64) × (s.upper < 64) × (e.lower < 32) × (e.upper < 32) }
    ensures { result ≡ corners s e grid.now }
{
    let lower = 64 * e.lower;
    let upper = 64 * e.upper;
    Corners {
        v00: grid[lower + s.lower],
        v10: grid[lower + s.upper],
        v01: grid[upper + s.lower],
        v11: grid[upper + s.upper],
    }
}

fn has_gap(v: Corners) -> bool
    ensures { result ≡ has_gap v }
{
    v.v00.is_nan() || v.v10.is_nan() || v.v01.is_nan() || v.v11.is_nan()
}

fn bilinear(v: Corners, ts: f64, te: f64) -> f64
    ensures { result ≡ bilinear v ts te }
{
    (1.0 - te) * ((1.0 - ts) * v.v00 + ts * v.v10) + te * ((1.0 - ts) * v.v01 + ts * v.v11)
}

// A lent surface: both axes, the grid, and how many strikes and expiries are in use. Three slices and two counts are what the C interface lends:
// a read tells 2 and 15 of all five before it cuts a slice to its size.
#[derive(Clone, Copy)]
pub struct Surface<'a> {
    pub strike_axis: &'a [f64],
    pub expiry_axis: &'a [f64],
    pub grid: &'a [f64],
    pub strikes: usize,
    pub expiries: usize,
}

// Both axes of a surface.
#[derive(Clone, Copy)]
struct Axes<'a> {
    strikes: Axis<'a>,
    expiries: Axis<'a>,
}

impl<'a> Surface<'a> {
    // The strikes in use, or all where the count is larger.
    pub fn strikes_in_use(&self) -> &'a [f64]
        ensures { result.now ≡ strikes_of self.now }
    {
        self.strike_axis
            .get(..self.strikes)
            .unwrap_or(self.strike_axis)
    }

    // Likewise. A function for both, and for the columns of admission, would take a slice with its count, for one line.
    pub fn expiries_in_use(&self) -> &'a [f64]
        ensures { result.now ≡ expiries_of self.now }
    {
        self.expiry_axis
            .get(..self.expiries)
            .unwrap_or(self.expiry_axis)
    }

    // 2, 15, 18, 19 and 20, as far as no cell is read; the axes, where none of them holds.
    fn axes_at(&self, strike: f64, expiry: f64) -> Result<Axes<'a>, Refusal>
        ensures number { number_in result ≡ refusal_of self.now strike expiry }
        ensures in_use { IfOk result (λ axes. (axes.strikes.values.now ≡ strikes_of self.now) × (axes.expiries.values.now ≡ expiries_of self.now)) }
    {
        check(
            self.strikes <= 64 && self.expiries <= 32,
            Refusal::OutOfBounds,
        )?;
        let long = self.strike_axis.len() >= 64
            && self.expiry_axis.len() >= 32
            && self.grid.len() >= 2048;
        check(long, Refusal::ShortBuffer)?;
        let strikes = Axis::of(self.strikes_in_use()).ok_or(Refusal::NoSurface)?;
        let expiries = Axis::of(self.expiries_in_use()).ok_or(Refusal::NoSurface)?;
        check(strikes.spans(strike), Refusal::StrikeRead)?;
        check(expiries.spans(expiry), Refusal::ExpiryRead)?;
        Ok(Axes { strikes, expiries })
    }

    // The Rust's `interpolate`. Checks 2, 15, 18, 19 and 20.
    pub fn interpolate(&self, strike: f64, expiry: f64) -> Result<f64, Refusal>
        ensures { read_outcome result ≡ reading_of self.now strike expiry }
    {
        let axes = self.axes_at(strike, expiry)?;
        let s = axes.strikes.bracket(strike);
        let e = axes.expiries.bracket(expiry);
        let v = corner_cells(self.grid, s, e);
        check(!has_gap(v), Refusal::ExpiryRead)?;
        Ok(bilinear(v, s.fraction, e.fraction))
    }

    // Not-a-number where it has none, as at `nearest_strike`.
    fn middle(&self) -> f64
        ensures { result ≡ middle_strike self.now.strike_axis.now self.now.strikes }
    {
        self.strike_axis
            .get(self.strikes / 2)
            .copied()
            .unwrap_or(grid::nan())
    }

    // The reading at the middle strike: the Rust's `atm_vol`.
    pub fn middle_strike(&self, expiry: f64) -> Result<f64, Refusal>
        ensures { read_outcome result ≡ reading_of self.now (middle_strike self.now.strike_axis.now self.now.strikes) expiry }
    {
        self.interpolate(self.middle(), expiry)
    }

    // The strike nearest the spot, of those in use; not-a-number where they are no axis.
    pub fn nearest_strike(&self, spot: f64) -> f64
        ensures { result ≡ nearest_strike spot (strikes_of self.now) }
    {
        nearest_strike(self.strikes_in_use(), spot)
    }
}

// The strike nearest the spot. What is no axis has none: not-a-number and no `Option`, since this call answers any slice, and a reading at it is refused.
pub fn nearest_strike(strikes: &[f64], spot: f64) -> f64
    ensures { result ≡ nearest_strike spot strikes.now }
{
    match Axis::of(strikes) {
        Some(axis) => axis.nearest(spot),
        None => grid::nan(),
    }
}
