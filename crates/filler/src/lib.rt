// The gap filler of a lent grid of up to 32 rows (expiries) and 64 columns (strikes). Of src/options/surface.rs.
#![tactic(auto)]

ghost use Rattle.std.specs.Prelude.{◌≡◌, ◌<◌, ◌≤◌, length};
ghost use Rattle.std.specs.Float.{nan};
ghost use Rattle.gaps.specs.Gaps.{filled, forward, backward, swept, rows_swept, column, put_column, columns_swept, fill_outcome, FillsGaps};

use limits::{Refusal, check};

#[tactic(auto, using(floats::proofs::Signs::nan_is), unfolding(gaps::specs::Gaps::filled))]
fn filled(last: f64, v: f64) -> f64
    ensures { result ≡ filled last v }
{
    if v.is_nan() { last } else { v }
}

// From the left: each gap takes the last value passed.
fn forward_pass(row: &mut [f64])
    ensures { row.new ≡ forward nan row.old }
{
    let mut last = grid::nan();
    for cell in row.iter_mut() {
        last = filled(last, *cell);
        *cell = last;
    }
}

// From the right, by an index. A loop over `row.iter_mut().rev()` was tried: the proof knows what it yielded, not what the cells become, and did not close. The
// forward pass over the row turned round is no plainer: it turns each row twice, and a grid of 2,048 took 9.3 µs so, by an index 7.1.
fn backward_pass(row: &mut [f64])
    ensures { row.new ≡ backward row.old }
{
    let mut last = grid::nan();
    for j in (0..row.len()).rev() {
        last = filled(last, row[j]);
        row[j] = last;
    }
}

// A row's gaps, or a column's: from the left, then from the right.
fn sweep(row: &mut [f64])
    ensures { row.new ≡ swept row.old }
{
    forward_pass(row);
    backward_pass(row);
}

// A lent grid and the part of it in use, within document 01's bounds: `fill_gaps` checks them, and no sweep asks again.
#[derive(Drop)]
struct Lent<'a> {
    grid: &'a mut [f64],
    strikes: usize,
    expiries: usize,
    ghost narrow: { strikes ≤ 64 },
    ghost low: { expiries ≤ 32 },
    ghost long: { 2048 ≤ length grid.now },
}

impl Lent<'_> {
    ghost use Rattle.filler.specs.Lent.{Leaves};

    // Each row is lent as a part that starts in the grid's middle.
    #[tactic(auto, using(gaps::proofs::Passes::rows_step), unfolding(gaps::specs::Gaps::rows_swept))]
    fn sweep_rows(&mut self)
        ensures { Leaves self.old self.new (rows_swept self.old.expiries self.old.strikes self.old.grid.now) }
    {
        for i in 0..self.expiries {
            let start = 64 * i;
            sweep(&mut self.grid[start..start + self.strikes]);
        }
    }

    fn gather(&self, cells: &mut [f64], j: usize)
        requires { (j < self.now.strikes) × (length cells.old ≡ self.now.expiries) }
        ensures { cells.new ≡ column j self.now.expiries self.now.grid.now }
    {
        for (i, cell) in cells.iter_mut().enumerate() {
            *cell = self.grid[64 * i + j];
        }
    }

    // A column is swept in an array, where its cells stand side by side.
    fn sweep_column(&mut self, j: usize)
        requires { j < self.old.strikes }
        ensures { Leaves self.old self.new (put_column j 0 (swept (column j self.old.expiries self.old.grid.now)) self.old.grid.now) }
    {
        let mut column = [0.0f64; 32];
        let cells = &mut column[..self.expiries];
        self.gather(cells, j);
        sweep(cells);
        for (i, cell) in cells.iter().enumerate() {
            self.grid[64 * i + j] = *cell;
        }
    }

    #[tactic(auto, using(gaps::proofs::Columns::columns_step), unfolding(gaps::specs::Gaps::columns_swept))]
    fn sweep_columns(&mut self)
        ensures { Leaves self.old self.new (columns_swept self.old.strikes self.old.expiries self.old.grid.now) }
    {
        for j in 0..self.strikes {
            self.sweep_column(j);
        }
    }
}

// Fills the gaps of any grid: rows, then columns. The grid and how much of it is in use come as the C interface lends them: 2 and 15 are told of all three.
#[tactic(auto, unfolding(gaps::specs::Gaps::fill_refusal, limits::specs::Checks::first, gaps::specs::Gaps::answered, limits::specs::Outcome::unless_refused))]
pub fn fill_gaps(grid: &mut [f64], strikes: usize, expiries: usize) -> Result<(), Refusal>
    ensures { FillsGaps strikes expiries grid.old (fill_outcome result) grid.new }
{
    check(strikes <= 64 && expiries <= 32, Refusal::OutOfBounds)?;
    check(grid.len() >= 2048, Refusal::ShortBuffer)?;
    let mut lent = Lent {
        grid,
        strikes,
        expiries,
    };
    lent.sweep_rows();
    lent.sweep_columns();
    Ok(())
}
