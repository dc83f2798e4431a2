// A volatility surface of quotes: axes, cells and counts, as `VolSurface::from_points` of src/options/surface.rs makes them.
#![tactic(auto)]

ghost use Rattle.chart.specs.Build.{outcome, Builds};
ghost use Rattle.admission.specs.Lent.{columns_in, buffers_in, SameBuffers};

mod axis;
mod cells;

use admission::{Quotes, SurfaceBuffers};
use axis::{Column, Values};
use cells::Placed;
use chart::Lengths;
use limits::Refusal;

// Builds the surface of the columns' first `count` quotes. Axes are made of quotes in range alone, so the checks before them return.
pub fn build(
    quotes: &Quotes<'_>,
    count: u64,
    buffers: &mut SurfaceBuffers<'_>,
) -> Result<Lengths, Refusal>
    ensures same_memory { SameBuffers buffers.new buffers.old }
    ensures builds { Builds (columns_in quotes.now) count (buffers_in buffers.old) (outcome result) (buffers_in buffers.new) }
{
    admission::check_quotes(quotes, count, buffers.is_small())?;
    let quotes = quotes.first(count as usize);
    let mut strikes = Values::new();
    Column {
        values: quotes.strikes,
    }
    .make_axis(&mut strikes);
    let mut expiries = Values::new();
    Column {
        values: quotes.expiries,
    }
    .make_axis(&mut expiries);
    admission::check_axes(strikes.len(), expiries.len())?;
    let placed = Placed {
        quotes,
        strikes: strikes.as_slice(),
        expiries: expiries.as_slice(),
    };
    placed.write(buffers);
    Ok(Lengths {
        strikes: strikes.len(),
        expiries: expiries.len(),
    })
}
