// erfc, pdf and cdf on f64, each equal to its definition of crate `gauss` for every input.
#![tactic(auto, unfolding(crate::proofs::Definitions::opened))]

ghost use Rattle.std.specs.Prelude.{◌≡◌, true, false};
ghost use Rattle.floats.specs.Operators.{decimal, ◌⊕◌, ◌⊗◌, ◌⊘◌, ◌≺◌};
ghost use Rattle.gauss.specs.Erfc.{series, terms, fraction, levels, erfc, erfc_from_zero};
ghost use Rattle.gauss.specs.Normal.{pdf, cdf};
ghost use Rattle.gauss.specs.Steps.{settled, upright, mirrored};
ghost use Rattle.normal.specs.Pairs.{both};

use std::f64::consts::{FRAC_2_SQRT_PI, SQRT_2};

// Two values, or what one function makes of them. They have names and are no array, since those who call `cdf_pair` mean one of them.
#[derive(Clone, Copy)]
pub struct Pair {
    pub first: f64,
    pub second: f64,
}

impl Pair {
    fn new(first: f64, second: f64) -> Pair
        ensures { result ≡ record { first = first; second = second } }
    {
        Pair { first, second }
    }

    // What f makes of each.
    fn map<F: Fn(f64) -> f64>(self, f: F) -> Pair
        requires first { F.pre f self.first }
        requires second { F.pre f self.second }
        ensures first { F.post f self.first result.first }
        ensures second { F.post f self.second result.second }
    {
        Pair::new(f(self.first), f(self.second))
    }
}

// A series for erfc: the factor w = (2 * v) * v of its terms, the last term, and the sum.
#[derive(Clone, Copy)]
struct Series {
    w: f64,
    g: f64,
    sum: f64,
}

impl Series {
    // No term but v itself.
    fn new(v: f64) -> Series
        ensures { result ≡ record { w = decimal 2 1 ⊗ v ⊗ v; g = v; sum = v } }
    {
        Series {
            w: (2.0 * v) * v,
            g: v,
            sum: v,
        }
    }

    // One more term, whose divisor is d.
    fn step(self, d: f64) -> Series
        ensures { result ≡ record { w = self.w; g = self.g ⊗ self.w ⊘ d; sum = self.sum ⊕ self.g ⊗ self.w ⊘ d } }
    {
        let g = (self.g * self.w) / d;
        Series {
            w: self.w,
            g,
            sum: self.sum + g,
        }
    }

    // Whether round n left the sum as it was for good: each later term is at most g, since w is at most 8 and each later divisor above 8.
    fn is_settled(self, n: u32, before: f64) -> bool
        ensures { result ≡ settled n self.w self.g before self.sum }
    {
        self.sum == before
            && 0.0 < before
            && 0.0 < self.g
            && self.g <= 1.0
            && 0.0 < self.w
            && self.w <= 8.0
            && 3 <= n
    }
}

// The sums of two series after their 40 rounds, in one loop: neither waits for the other's divisions.
fn series_pair(v: Pair) -> Pair
    ensures { result ≡ both (λ v. (series v terms).sum) v.first v.second }
{
    let mut a = Series::new(v.first);
    let mut b = Series::new(v.second);
    for k in 0..40u32 {
        let d = (2 * k + 3) as f64;
        let next_a = a.step(d);
        let next_b = b.step(d);
        if next_a.is_settled(k, a.sum) && next_b.is_settled(k, b.sum) {
            return Pair::new(next_a.sum, next_b.sum);
        }
        a = next_a;
        b = next_b;
    }
    Pair::new(a.sum, b.sum)
}

// c of two fractions after their 60 rounds, in one loop. A variable each: a struct with one line of a round would be no plainer.
fn fraction_pair(v: Pair) -> Pair
    ensures { result ≡ both (λ v. fraction v levels) v.first v.second }
{
    let mut c = v.first;
    let mut d = v.second;
    for j in (1..=60u32).rev() {
        let half = (j as f64) / 2.0;
        c = v.first + half / c;
        d = v.second + half / d;
    }
    Pair::new(c, d)
}

// erfc of two values under 2, by the series.
#[tactic(auto, unfolding(crate::proofs::Definitions::opened, gauss::specs::Erfc::erfc_from_zero))]
fn near_pair(v: Pair) -> Pair
    requires { (v.first ≺ decimal 2 1 ≡ true) × (v.second ≺ decimal 2 1 ≡ true) }
    ensures { result ≡ both erfc_from_zero v.first v.second }
{
    let e = v.map(|x| FRAC_2_SQRT_PI * exponential::exp(-(x * x)));
    let s = series_pair(v);
    Pair::new(1.0 - e.first * s.first, 1.0 - e.second * s.second)
}

// erfc of two values from 2 on, by the fraction. Where both numerators are 0 so are both quotients, and no fraction is wanted.
#[tactic(auto, unfolding(crate::proofs::Definitions::opened, gauss::specs::Erfc::erfc_from_zero))]
fn far_pair(v: Pair) -> Pair
    requires { (v.first ≺ decimal 2 1 ≡ false) × (v.second ≺ decimal 2 1 ≡ false) }
    ensures { result ≡ both erfc_from_zero v.first v.second }
{
    let e = v.map(|x| exponential::exp(-(x * x)) * 0.5641895835477563);
    if e.first == 0.0 && 0.0 < v.first && e.second == 0.0 && 0.0 < v.second {
        return e;
    }
    let c = fraction_pair(v);
    Pair::new(e.first / c.first, e.second / c.second)
}

// erfc of two values not below 0: in one loop where both stand on one side of 2, else each beside itself.
fn erfc_from_zero_pair(v: Pair) -> Pair
    ensures { result ≡ both erfc_from_zero v.first v.second }
{
    match (v.first < 2.0, v.second < 2.0) {
        (true, true) => near_pair(v),
        (false, false) => far_pair(v),
        (true, false) => Pair::new(
            near_pair(Pair::new(v.first, v.first)).first,
            far_pair(Pair::new(v.second, v.second)).second,
        ),
        (false, true) => Pair::new(
            far_pair(Pair::new(v.first, v.first)).first,
            near_pair(Pair::new(v.second, v.second)).second,
        ),
    }
}

// v or its mirror image, whichever is not below 0.
fn upright(v: f64) -> f64
    ensures { result ≡ upright v }
{
    if v < 0.0 { -v } else { v }
}

// erfc of v, from that of its upright value.
fn mirrored(v: f64, e: f64) -> f64
    ensures { result ≡ mirrored v e }
{
    if v < 0.0 { 2.0 - e } else { e }
}

// erfc of two values, each from that of its upright value.
#[tactic(auto, using(gauss::proofs::Mirror::of_upright), unfolding(crate::proofs::Definitions::opened))]
fn erfc_pair(v: Pair) -> Pair
    ensures { result ≡ both erfc v.first v.second }
{
    let r = erfc_from_zero_pair(v.map(upright));
    Pair::new(mirrored(v.first, r.first), mirrored(v.second, r.second))
}

// One value is the pair of it and itself.
pub fn erfc(v: f64) -> f64
    ensures { result ≡ erfc v }
{
    erfc_pair(Pair::new(v, v)).first
}

// The standard normal density.
pub fn pdf(x: f64) -> f64
    ensures { result ≡ pdf x }
{
    0.3989422804014327 * exponential::exp(-0.5 * x * x)
}

// The standard normal probability of a value not above x, of two values at once, as a price needs it.
pub fn cdf_pair(x: f64, y: f64) -> Pair
    ensures { result ≡ both cdf x y }
{
    let v = Pair::new(x, y);
    erfc_pair(v.map(|x| -x / SQRT_2)).map(|e| 0.5 * e)
}

// The same of one value: the pair of it and itself.
pub fn cdf(x: f64) -> f64
    ensures { result ≡ cdf x }
{
    cdf_pair(x, x).first
}
