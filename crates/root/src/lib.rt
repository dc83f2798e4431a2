// The square root of an f64, correctly rounded, for every input, in the order in which IEEE 754 tells it: exceptional operands, the exact root, the
// rounding. The numbers in brackets are clauses of its edition of 2019.
#![tactic(auto, using(floats::proofs::Exceptions::exceptional), unfolding(crate::proofs::Definitions::opened))]

ghost use Rattle.std.specs.Prelude.{◌≡◌, ◌+◌, ◌*◌, ◌/◌, ◌%◌, ◌^◌, ◌≤◌, ◌<◌, T, eqb, if◌then◌else◌, MatchOption};
ghost use Rattle.std.specs.Float.Ieee.Positive.{positive};
ghost use Rattle.root.specs.Root.{SquareRoot, sqrt, whole_root};

use floats::{FIELD, Parts};

// The digits that stand under the root: an odd exponent, which is an even size, is folded into them as a factor of two.
fn radicand(p: Parts) -> u64
    requires { p.digits < 2 ^ 53 }
    ensures { result ≡ (if eqb (p.size % 2) 0 then 2 * p.digits else p.digits) }
{
    if p.size % 2 == 0 {
        2 * p.digits
    } else {
        p.digits
    }
}

// A whole root, and what is left below it.
#[derive(Clone, Copy)]
struct Rooted {
    q: u64,
    rem: u64,
    ghost left: { rem ≤ 2 * q },
}

impl Rooted {
    ghost use Rattle.root.specs.Steps.{under};

    // The whole root of t * 2^52, and what is left below it: two binary digits of that number a round, first the 54 of t, moved to the left end of a word,
    // then zeros.
    fn exact_root(t: u64) -> Rooted
        requires { t < 2 ^ 54 }
        ensures { under result ≡ t * 2 ^ 52 }
    {
        let mut root = Rooted { q: 0, rem: 0 };
        let mut rest = t << 10;
        for _ in 0..53u32 {
            root = root.step(rest >> 62);
            rest <<= 2;
        }
        root
    }

    // One more binary digit of a root, for two more digits d of the number under it.
    fn step(self, d: u64) -> Rooted
        requires digits { d < 4 }
        requires short { self.q < 2 ^ 60 }
        ensures { under result ≡ 4 * under self + d }
    {
        let rem = 4 * self.rem + d;
        if 4 * self.q + 1 <= rem {
            Rooted {
                q: 2 * self.q + 1,
                rem: rem - (4 * self.q + 1),
            }
        } else {
            Rooted { q: 2 * self.q, rem }
        }
    }

    // The whole number nearest to the root of the number under it: q + 1 where that root is above q + 1/2, which is where rem is above q. It is never
    // q + 1/2 itself, whose square is no whole number.
    fn rounded(self) -> u64
        requires { self.q < 2 ^ 53 }
        ensures { result ≡ (whole_root 54 (4 * under self) + 1) / 2 }
    {
        if self.q < self.rem {
            self.q + 1
        } else {
            self.q
        }
    }
}

// Exceptional operands, each answered at once. None is left but a finite number above zero.
fn exceptional(v: f64) -> Option<f64>
    ensures { MatchOption result (T (positive v)) (λ r. r ≡ sqrt v) }
{
    if v.is_nan() {
        Some(v) // not-a-number stays not-a-number (6.2)
    } else if v < 0.0 {
        Some(f64::NAN) // an invalid operation (7.2)
    } else if v == 0.0 {
        Some(v) // a zero keeps its sign (6.3)
    } else if v == f64::INFINITY {
        Some(v) // infinity is its own root (6.1)
    } else {
        None
    }
}

pub fn sqrt(v: f64) -> f64
    ensures { SquareRoot v result }
{
    if let Some(root) = exceptional(v) {
        return root;
    }
    // The exact root (5.1, 5.4.1): v is n * 4^(k - 1074) with a whole n = t * 2^52, whose whole root is q, with rem left below it.
    let p = floats::taken_apart(v);
    let t = radicand(p);
    let k = (p.size + 969) / 2;
    let root = Rooted::exact_root(t);
    // The rounding (5.1), to nearest (4.3.1): the root of v is 2^(k - 1074) times that of n. m has 53 digits; the first adds one to the exponent's field.
    let m = root.rounded();
    f64::from_bits(m + k * FIELD)
}
