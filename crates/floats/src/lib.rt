// The float functions that the crates above call, each equal to its definition in specs/ for every input.
#![tactic(auto)]

ghost use Rattle.std.specs.Prelude.{◌≡◌, T};
ghost use Rattle.std.specs.Float.Ieee.Positive.{positive};
ghost use Rattle.floats.specs.Values.{magnitude, minimum, copysign, finite};
ghost use Rattle.floats.specs.Digits.{Digits, parts_of};

// Rust's f64::abs.
pub fn abs(x: f64) -> f64
    ensures { result ≡ magnitude x }
{
    x.abs()
}

// Rust's f64::min: the other operand beside a not-a-number. It may give either of two equal ones, and here it is the first.
pub fn min(x: f64, y: f64) -> f64
    ensures { result ≡ minimum x y }
{
    if x.is_nan() || y < x { y } else { x }
}

// Rust's f64::copysign: a not-a-number has no sign here.
pub fn copysign(x: f64, y: f64) -> f64
    ensures { result ≡ copysign x y }
{
    if y.is_nan() { x.abs() } else { x.copysign(y) }
}

pub fn is_finite(x: f64) -> bool
    ensures { result ≡ finite x }
{
    x.is_finite()
}

// The 53 leading binary digits of a float above 0, and how many digits it has in units of 2^-1074.
#[derive(Clone, Copy)]
pub struct Parts {
    pub digits: u64,
    pub size: u64,
}

// One in the exponent's field of a pattern, which stands above 52 digits; the first of the 53 is not written.
pub const FIELD: u64 = 1 << 52;

// Those of a finite float above 0, from its pattern.
fn leading_digits(v: f64) -> Parts
    requires { T (positive v) }
    ensures { Digits v result.digits result.size }
{
    let b = v.to_bits();
    let field = b / FIELD;
    if field == 0 {
        let z = b.leading_zeros() as u64;
        Parts {
            digits: b << (z - 11),
            size: 64 - z,
        }
    } else {
        Parts {
            digits: b % FIELD + FIELD,
            size: field + 52,
        }
    }
}

// Those of any float; zeros for one that is not above 0 or not finite. An `Option` is no plainer: both callers hold a float that has them, and would
// have a None to answer that cannot come.
pub fn taken_apart(v: f64) -> Parts
    ensures { result ≡ parts_of v }
{
    if 0.0 < v && v < f64::INFINITY {
        leading_digits(v)
    } else {
        Parts { digits: 0, size: 0 }
    }
}
