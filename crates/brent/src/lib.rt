// The solver on paper: its points, states and answers, Brent's method as the Rust's `implied_volatility` writes it, fed one price at a time (specs/), and
// what document 01 says of it, proved for every list of prices. Crate `solver` has the functions.
#![tactic(auto)]

ghost use Rattle.std.specs.Prelude.{◌≡◌};

use limits::Refusal;

// A round's numbers: the last point a, the best b and the opposing c, their errors, and the last two steps.
#[derive(Clone, Copy, Default)]
pub struct Points {
    pub a: f64,
    pub b: f64,
    pub c: f64,
    pub fa: f64,
    pub fb: f64,
    pub fc: f64,
    pub d: f64,
    pub e: f64,
}

// A solver between two prices. Document 01 has it a record of numbers, all 0 where it has ended, and no enum of stages: every one that a host hands in is
// answered.
#[derive(Clone, Copy, Default)]
pub struct Solver {
    pub market: f64,
    pub points: Points,
    pub rounds: u64,
    pub evaluations: u64,
}

// What a solver found, with its evidence: the error of the volatility, and the opposing point c with its error.
#[derive(Clone, Copy)]
pub struct Solution {
    pub volatility: f64,
    pub error: f64,
    pub c: f64,
    pub c_error: f64,
    pub evaluations: u64,
}

// Why a solver found nothing, with the evaluations that it made.
#[derive(Clone, Copy)]
pub struct Unsolved {
    pub refusal: Refusal,
    pub evaluations: u64,
}

// What a check turned down before any evaluation.
impl From<Refusal> for Unsolved {
    ghost from_gives = { λ refusal unsolved. unsolved ≡ record { refusal = refusal; evaluations = 0 } };

    fn from(refusal: Refusal) -> Unsolved {
        Unsolved {
            refusal,
            evaluations: 0,
        }
    }
}

// Asking for the price at a volatility, or ended; `next` is the state that follows.
#[derive(Clone, Copy)]
pub enum Answer {
    Ask {
        volatility: f64,
        next: Solver,
    },
    Ended {
        solved: Result<Solution, Unsolved>,
        next: Solver,
    },
}

// The fraction p / q by which an interpolation moves b.
#[derive(Clone, Copy)]
pub struct Ratio {
    pub p: f64,
    pub q: f64,
}

// The last step and the one before it.
#[derive(Clone, Copy)]
pub struct LastSteps {
    pub d: f64,
    pub e: f64,
}
