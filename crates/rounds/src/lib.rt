// One round of Brent's method, as the Rust's `implied_volatility` writes it.
#![tactic(auto, unfolding(crate::proofs::Definitions::opened))]

ghost use Rattle.std.specs.Prelude.{◌≡◌};
ghost use Rattle.brent.specs.Brent.{reset, swap, tolerance, middle, converged, advance};
ghost use Rattle.brent.specs.Brent.{turned, by_line, by_parabola, interpolation, tries, accepts, steps, step};

use brent::{LastSteps, Points, Ratio};

// c opposes b again.
pub fn reset(p: Points) -> Points
    ensures { result ≡ reset p }
{
    if p.fb * p.fc > 0.0 {
        let d = p.b - p.a;
        Points {
            c: p.a,
            fc: p.fa,
            d,
            e: d,
            ..p
        }
    } else {
        p
    }
}

// b has the smaller error.
pub fn swap(p: Points) -> Points
    ensures { result ≡ swap p }
{
    if floats::abs(p.fc) < floats::abs(p.fb) {
        Points {
            a: p.b,
            b: p.c,
            c: p.b,
            fa: p.fb,
            fb: p.fc,
            fc: p.fb,
            ..p
        }
    } else {
        p
    }
}

fn tolerance(b: f64) -> f64
    ensures { result ≡ tolerance b }
{
    2.0 * f64::EPSILON * floats::abs(b) + 0.5 * 0.000001
}

fn middle(b: f64, c: f64) -> f64
    ensures { result ≡ middle b c }
{
    0.5 * (c - b)
}

pub fn converged(p: Points) -> bool
    ensures { result ≡ converged p }
{
    floats::abs(middle(p.b, p.c)) <= tolerance(p.b) || floats::abs(p.fb) < 0.000001
}

// The sign of p / q goes to q.
fn turned(p: f64, q: f64) -> Ratio
    ensures { result ≡ turned p q }
{
    if p > 0.0 {
        Ratio { p, q: -q }
    } else {
        Ratio { p: -p, q }
    }
}

// The points of a round with what its steps are measured by: the tolerance, and half of the way from b to c.
#[derive(Clone, Copy)]
struct Round {
    points: Points,
    tol1: f64,
    xm: f64,
    ghost near: { tol1 ≡ tolerance points.b },
    ghost half_way: { xm ≡ middle points.b points.c },
}

impl Round {
    fn of(points: Points) -> Round
        ensures { result.points ≡ points }
    {
        Round {
            points,
            tol1: tolerance(points.b),
            xm: middle(points.b, points.c),
        }
    }

    // Where the line through two points crosses 0.
    fn by_line(self) -> Ratio
        ensures { result ≡ by_line self.points self.xm }
    {
        let s = self.points.fb / self.points.fa;
        turned(2.0 * self.xm * s, 1.0 - s)
    }

    // Where the parabola through three points does.
    fn by_parabola(self) -> Ratio
        ensures { result ≡ by_parabola self.points self.xm }
    {
        let p = self.points;
        let s = p.fb / p.fa;
        let q2 = p.fa / p.fc;
        let r2 = p.fb / p.fc;
        turned(
            s * (2.0 * self.xm * q2 * (q2 - r2) - (p.b - p.a) * (r2 - 1.0)),
            (q2 - 1.0) * (r2 - 1.0) * (s - 1.0),
        )
    }

    // By a line where a and c are the same point, else by a parabola.
    fn interpolation(self) -> Ratio
        ensures { result ≡ interpolation self.points self.xm }
    {
        if floats::abs(self.points.a - self.points.c) < f64::EPSILON {
            self.by_line()
        } else {
            self.by_parabola()
        }
    }

    fn tries(self) -> bool
        ensures { result ≡ tries self.points self.tol1 }
    {
        floats::abs(self.points.e) >= self.tol1
            && floats::abs(self.points.fa) > floats::abs(self.points.fb)
    }

    fn accepts(self, r: Ratio) -> bool
        ensures { result ≡ accepts r self.points.e self.tol1 self.xm }
    {
        let most = 3.0 * self.xm * r.q - floats::abs(self.tol1 * r.q);
        2.0 * r.p < floats::min(most, floats::abs(self.points.e) * floats::abs(r.q))
    }

    // By the interpolation, or half way to c.
    fn steps(self) -> LastSteps
        ensures { result ≡ steps self.points self.tol1 self.xm }
    {
        if self.tries() {
            let r = self.interpolation();
            if self.accepts(r) {
                return LastSteps {
                    d: r.p / r.q,
                    e: self.points.d,
                };
            }
        }
        LastSteps {
            d: self.xm,
            e: self.xm,
        }
    }

    // At least the tolerance, towards c.
    fn step(self, d: f64) -> f64
        ensures { result ≡ step d self.tol1 self.xm }
    {
        if floats::abs(d) > self.tol1 {
            d
        } else {
            floats::copysign(self.tol1, self.xm)
        }
    }
}

// The next point, with the last in its place.
pub fn advance(p: Points) -> Points
    ensures { result ≡ advance p }
{
    let round = Round::of(p);
    let s = round.steps();
    Points {
        a: p.b,
        b: p.b + round.step(s.d),
        fa: p.fb,
        fb: 0.0,
        d: s.d,
        e: s.e,
        ..p
    }
}
