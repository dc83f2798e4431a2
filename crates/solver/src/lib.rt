// Document 01's solver, fed one price at a time by any model: Brent's method as the Rust's `implied_volatility` writes it.
#![tactic(auto, unfolding(crate::proofs::Definitions::opened))]

ghost use Rattle.std.specs.Prelude.{◌≡◌, false};
ghost use Rattle.limits.specs.Refusals.{number, number_in};
ghost use Rattle.brent.specs.Outcome.{outcome};
ghost use Rattle.brent.specs.Feed.{over, fresh, refuse, ask, find, start, placed, in_range, is_unusable, is_unbracketed, feed_number, feed};

use brent::{Answer, Points, Solution, Solver, Unsolved};
use limits::{Refusal, check};

fn over() -> Solver
    ensures { result ≡ over }
{
    Solver::default()
}

fn fresh(market: f64) -> Solver
    ensures { result ≡ fresh market }
{
    let points = Points {
        a: 0.000001,
        b: 10.0,
        c: 0.000001,
        ..Points::default()
    };
    Solver {
        market,
        points,
        ..Solver::default()
    }
}

// The solver ends with a refusal.
fn refuse(refusal: Refusal, evaluations: u64) -> Answer
    ensures { outcome result ≡ refuse (number refusal) evaluations }
{
    Answer::Ended {
        solved: Err(Unsolved {
            refusal,
            evaluations,
        }),
        next: over(),
    }
}

// The solver ends with b as its answer.
fn find(p: Points, evaluations: u64) -> Answer
    ensures { outcome result ≡ find p evaluations }
{
    let solution = Solution {
        volatility: p.b,
        error: p.fb,
        c: p.c,
        c_error: p.fc,
        evaluations,
    };
    Answer::Ended {
        solved: Ok(solution),
        next: over(),
    }
}

// The solver asks for the price at b.
fn ask(next: Solver) -> Answer
    ensures { outcome result ≡ ask next.market next.points next.rounds next.evaluations }
{
    Answer::Ask {
        volatility: next.points.b,
        next,
    }
}

// Starts a solver for a market price: 5, or it asks for the price at 0.000001.
pub fn start(market: f64) -> Answer
    ensures { outcome result ≡ start market }
{
    if limits::is_price(market) {
        Answer::Ask {
            volatility: 0.000001,
            next: fresh(market),
        }
    } else {
        refuse(Refusal::Price, 0)
    }
}

// The error of the price that was asked for takes its place among the points.
fn placed(p: Points, evaluations: u64, error: f64) -> Points
    ensures { result ≡ placed p evaluations error }
{
    match evaluations {
        0 => Points { fa: error, ..p },
        1 => {
            let d = p.b - p.a;
            Points {
                c: p.a,
                fb: error,
                fc: p.fa,
                d,
                e: d,
                ..p
            }
        }
        _ => Points { fb: error, ..p },
    }
}

fn in_range(p: Points) -> bool
    ensures { result ≡ in_range p }
{
    limits::is_volatility(p.a) && limits::is_volatility(p.b) && limits::is_volatility(p.c)
}

// 21
fn is_unusable(s: Solver) -> bool
    ensures { result ≡ is_unusable s }
{
    s.market == 0.0 || s.rounds > 50 || s.evaluations > 52 || !in_range(s.points)
}

// 12
fn is_unbracketed(s: Solver, error: f64) -> bool
    ensures { result ≡ is_unbracketed s error }
{
    s.evaluations == 1 && s.points.fa * error > 0.0
}

// The checks that a feed makes after 21, in document 01's order.
fn check_error(s: Solver, error: f64) -> Result<(), Refusal>
    requires { is_unusable s ≡ false }
    ensures { number_in result ≡ feed_number s error }
{
    check(floats::is_finite(error), Refusal::SolverNotFinite)?;
    check(!is_unbracketed(s, error), Refusal::NotBracketed)?;
    check(s.rounds < 50, Refusal::NoConvergence)
}

// Answers the price at the volatility that was asked for: 21, 11, 12, 13, or it has found the volatility, or it asks for another price.
pub fn feed(s: Solver, price: f64) -> Answer
    ensures { outcome result ≡ feed s price }
{
    if is_unusable(s) {
        return Answer::Ended {
            solved: Err(Refusal::Malformed.into()),
            next: s,
        };
    }
    let error = price - s.market;
    let evaluations = s.evaluations + 1;
    if let Err(refusal) = check_error(s, error) {
        return refuse(refusal, evaluations);
    }
    let q = placed(s.points, s.evaluations, error);
    if s.evaluations == 0 {
        return ask(Solver {
            points: q,
            evaluations,
            ..s
        });
    }
    let p = rounds::swap(rounds::reset(q));
    if rounds::converged(p) {
        return find(p, evaluations);
    }
    ask(Solver {
        points: rounds::advance(p),
        rounds: s.rounds + 1,
        evaluations,
        ..s
    })
}
