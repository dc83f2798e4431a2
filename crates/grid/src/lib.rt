// A lent grid of up to 32 rows (expiries) and 64 columns (strikes), and its readings, on paper: where a cell stands, the searches and the readings of
// src/options/surface.rs, the strike nearest a spot (specs/). Crate `readings` has the calls.
#![tactic(auto)]

ghost use Rattle.std.specs.Prelude.{◌≡◌};
ghost use Rattle.std.specs.Float.{nan};

// Not-a-number: a gap.
#[tactic(auto, unfolding(limits::proofs::Float::of_bits))]
pub fn nan() -> f64
    ensures { result ≡ nan }
{
    f64::NAN
}

// What `bracket` returns: two axis values by index, and how far between them.
#[derive(Clone, Copy)]
pub struct Span {
    pub lower: usize,
    pub upper: usize,
    pub fraction: f64,
}

// The cells that a read uses.
#[derive(Clone, Copy)]
pub struct Corners {
    pub v00: f64,
    pub v10: f64,
    pub v01: f64,
    pub v11: f64,
}
