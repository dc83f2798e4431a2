// The cells and counts of quotes on their axes.
ghost use Rattle.std.specs.Prelude.{◌≡◌, true, ◌≤◌, ◌<◌, eqb, nat_lt, length, get_or, position, if◌then◌else◌};
ghost use Rattle.std.specs.Float.{nan};
ghost use Rattle.floats.specs.Operators.{decimal, ◌⊘◌};
ghost use Rattle.grid.specs.Layout.{cell_at, values};
ghost use Rattle.chart.specs.Quotes.{all_in_range};
ghost use Rattle.chart.specs.Axis.{place};
ghost use Rattle.chart.specs.Cells.{axes};
ghost use Rattle.chart.specs.Steps.{Blank, Filed, held, CellsWritten};
ghost use Rattle.chart.specs.Build.{front, surface_of};
ghost use Rattle.admission.specs.Lent.{buffers_in, SameBuffers};
ghost use Rattle.surface.specs.Quoted.{quotes_in};
ghost use Rattle.surface.specs.Filed.{sums, numbers};

use crate::axis::place;
use admission::{Quotes, SurfaceBuffers};

// Of one cell: the volatilities filed in it, summed, and how many.
#[derive(Clone, Copy, Default)]
struct Cell {
    sum: f64,
    number: u32,
}

impl Cell {
    fn mean(self) -> f64
        ensures { result ≡ self.sum ⊘ decimal self.number 1 }
    {
        self.sum / (self.number as f64)
    }

    // A counted cell holds its mean, an uncounted one what the cell before it holds.
    fn mean_or(self, last: f64) -> f64
        ensures { result ≡ (if eqb self.number 0 then last else (self.sum ⊘ decimal self.number 1)) }
    {
        if self.number == 0 { last } else { self.mean() }
    }
}

// The first counted cell of a row, which those before it take their value from.
fn first_counted(cells: &[Cell]) -> Option<usize>
    ensures { result ≡ position (λ cell. nat_lt 0 cell.number) cells.now }
{
    cells.iter().position(|cell| cell.number > 0)
}

// What the cells of a row hold.
fn write_row(row: &mut [f64], cells: &[Cell])
    requires { length cells.now ≡ length row.old }
    ensures { row.new ≡
        values (held (λ k. get_or (sums cells.now) k nan) (λ k. get_or (numbers cells.now) k 0) (length row.old))
        (length row.old) 0 }
{
    if row.is_empty() {
        return;
    }
    let first = first_counted(cells).unwrap_or(0);
    let mut last = cells[first].mean();
    for (j, entry) in row.iter_mut().enumerate() {
        last = cells[j].mean_or(last);
        *entry = last;
    }
}

// The counts of a row.
fn count_row(row: &mut [u64], cells: &[Cell])
    requires { length cells.now ≡ length row.old }
    ensures { row.new ≡ values (λ k. get_or (numbers cells.now) k 0) (length row.old) 0 }
{
    for (j, count) in row.iter_mut().enumerate() {
        *count = u64::from(cells[j].number);
    }
}

// Copies src to the front of dst, value by value: of an axis, which lies in a lent vector, std's `copy_from_slice` is a call of memmove, and the archive for
// C would need that from outside. Out of line, since within `build` it made the search of a quote's place slower: 1,024 quotes that go round 8 strikes took
// 1.4 times as long.
#[inline(never)]
fn copy_front(dst: &mut [f64], src: &[f64])
    requires { length src.now ≤ length dst.old }
    ensures { dst.new ≡ front src.now dst.old }
{
    for (i, entry) in dst[..src.len()].iter_mut().enumerate() {
        *entry = src[i];
    }
}

// Quotes that no check turned down, on the axes that were made of them: columns by strike, rows by expiry.
#[derive(Clone, Copy)]
pub(crate) struct Placed<'a> {
    pub(crate) quotes: Quotes<'a>,
    pub(crate) strikes: &'a [f64],
    pub(crate) expiries: &'a [f64],
    ghost one_length: { (length quotes.expiries.now ≡ length quotes.strikes.now) × (length quotes.volatilities.now ≡ length quotes.strikes.now) },
    ghost few: { length quotes.strikes.now ≤ 1024 },
    ghost ranged: { all_in_range (quotes_in quotes) ≡ true },
    ghost narrow: { length strikes.now ≤ 64 },
    ghost low: { length expiries.now ≤ 32 },
    ghost strikes_made: { strikes.now ≡ (axes (quotes_in quotes)).strikes },
    ghost expiries_made: { expiries.now ≡ (axes (quotes_in quotes)).expiries },
}

impl Placed<'_> {
    ghost use Rattle.surface.specs.Lent.{axes_in, home};

    // Where the cell of a quote stands.
    fn home(&self, i: usize) -> usize
        requires { i < length self.now.quotes.strikes.now }
        ensures { (result ≡ home self.now i) × (result < 2048) }
    {
        64 * place(self.expiries, self.quotes.expiries[i])
            + place(self.strikes, self.quotes.strikes[i])
    }

    // Files each quote in its cell: its volatility goes to the cell's sum, and one to its count. The cells are lent, so that none is moved.
    fn tally(&self, cells: &mut [Cell; 2048])
        requires { Blank (sums cells.old) (numbers cells.old) }
        ensures { Filed (axes_in self.now) (quotes_in self.now.quotes) (sums cells.new) (numbers cells.new) }
    {
        for i in 0..self.quotes.strikes.len() {
            let at = self.home(i);
            let cell = cells[at];
            cells[at] = Cell {
                sum: cell.sum + self.quotes.volatilities[i],
                number: cell.number + 1,
            };
        }
    }

    // The rows of the grid and of the counts, each lent as a part that starts in its middle.
    fn write_cells(&self, grid: &mut [f64], counts: &mut [u64])
        requires { (2048 ≤ length grid.old) × (2048 ≤ length counts.old) }
        ensures { CellsWritten (axes_in self.now) (quotes_in self.now.quotes) grid.old counts.old grid.new counts.new }
    {
        let empty = Cell::default();
        let mut cells = [empty; 2048];
        self.tally(&mut cells);
        for i in 0..self.expiries.len() {
            let start = 64 * i;
            let end = start + self.strikes.len();
            let row = &cells[start..end];
            write_row(&mut grid[start..end], row);
            count_row(&mut counts[start..end], row);
        }
    }

    // Writes the surface.
    pub(crate) fn write(&self, buffers: &mut SurfaceBuffers<'_>)
        requires { (64 ≤ length buffers.old.strike_axis.now) × (32 ≤ length buffers.old.expiry_axis.now)
            × (2048 ≤ length buffers.old.grid.now) × (2048 ≤ length buffers.old.counts.now) }
        ensures same_memory { SameBuffers buffers.new buffers.old }
        ensures written { buffers_in buffers.new ≡ surface_of (quotes_in self.now.quotes) (buffers_in buffers.old) }
    {
        self.write_cells(buffers.grid, buffers.counts);
        copy_front(buffers.strike_axis, self.strikes);
        copy_front(buffers.expiry_axis, self.expiries);
    }
}
