// Rows of numbers made offers, options and the book's record, and answers made rows: which entry is which is ledger/specs/Rows'.
#![tactic(auto)]

ghost use Rattle.std.specs.Prelude.{◌≡◌, ℕ, min, ◌∷◌, []};
ghost use Rattle.limits.specs.Refusals.{number};
ghost use Rattle.ledger.specs.Rows.{kind_of, terms_of, offer_of, option_of, numbers_of, evidence_of, shortest, book_in};
ghost use Rattle.rows.specs.Told.{told_implied};

use blackscholes::{OptionParams, OptionType};
use brent::{Solution, Unsolved};
use ledger::{Book, Offer, Opening, Terms};

// A C host passes a kind as a `bool`. No `From`, since this crate owns neither type.
pub fn kind_of(is_put: bool) -> OptionType
    ensures { result ≡ kind_of is_put }
{
    if is_put {
        OptionType::Put
    } else {
        OptionType::Call
    }
}

// A C host passes both as `bool`s.
fn terms_of(is_price: bool, is_put: bool, value: f64) -> Terms
    ensures { result ≡ terms_of is_price is_put value }
{
    if is_price {
        Terms::Price {
            kind: kind_of(is_put),
            market: value,
        }
    } else {
        Terms::Volatility { v: value }
    }
}

// An offer's rows: whether it is a price, and of a put; strike, expiry, value.
#[tactic(auto, unfolding(ledger::specs::Rows::offer_of))]
pub fn offer_of(kind: [bool; 2], figures: [f64; 3]) -> Offer
    ensures { result ≡ offer_of kind figures }
{
    Offer {
        strike: figures[0],
        expiry: figures[1],
        terms: terms_of(kind[0], kind[1], figures[2]),
    }
}

// A C host passes a kind and five figures, each by itself: `OptionParams` is their struct, and is made here.
#[tactic(auto, unfolding(ledger::specs::Rows::option_of))]
pub fn option_of(
    put: bool,
    spot: f64,
    strike: f64,
    expiry: f64,
    rate: f64,
    volatility: f64,
) -> OptionParams
    ensures { result ≡ option_of put spot strike expiry rate volatility }
{
    OptionParams {
        spot,
        strike,
        time_to_expiry: expiry,
        risk_free_rate: rate,
        volatility,
        option_type: kind_of(put),
    }
}

// Why a solver found nothing, as a row tells it: a number, one of document 01's table or any other, and the evaluations made.
pub trait Refused: Copy {
    ghost number_told: { Self → ℕ };

    ghost evaluations_told: { Self → ℕ };

    fn told(self) -> [u64; 2]
        ensures { result ≡ number_told self ∷ evaluations_told self ∷ [] };
}

impl Refused for Unsolved {
    ghost number_told = { λ unsolved. number unsolved.refusal };

    ghost evaluations_told = { λ unsolved. unsolved.evaluations };

    fn told(self) -> [u64; 2]
        ensures { result ≡ number self.refusal ∷ self.evaluations ∷ [] }
    {
        [u64::from(self.refusal), self.evaluations]
    }
}

// A number and evaluations, as they are.
impl Refused for (u64, u64) {
    ghost number_told = { λ told. told.0 };

    ghost evaluations_told = { λ told. told.1 };

    fn told(self) -> [u64; 2]
        ensures { result ≡ self.0 ∷ self.1 ∷ [] }
    {
        [self.0, self.1]
    }
}

// An answer's rows: its number, 0 where it was accepted, and evaluations; volatility, error, point c and its error. No `From` makes an array of a `Result`,
// since neither type is a crate's own.
#[tactic(auto, unfolding(ledger::specs::Rows::numbers_of, brent::specs::Outcome::zeros))]
pub fn numbers_of<E: Refused>(answer: Result<Solution, E>) -> [u64; 2]
    ensures { result ≡ numbers_of (told_implied E.number_told E.evaluations_told answer) }
{
    match answer {
        Ok(solution) => [0, solution.evaluations],
        Err(refusal) => refusal.told(),
    }
}

#[tactic(auto, unfolding(ledger::specs::Rows::evidence_of, brent::specs::Outcome::zeros, limits::proofs::Float::of_bits, limits::proofs::Float::round))]
pub fn evidence_of<E: Refused>(answer: Result<Solution, E>) -> [f64; 4]
    ensures { result ≡ evidence_of (told_implied E.number_told E.evaluations_told answer) }
{
    match answer {
        Ok(solution) => [
            solution.volatility,
            solution.error,
            solution.c,
            solution.c_error,
        ],
        Err(_) => [0.0; 4],
    }
}

// How many rows all four slices have.
pub fn shortest(a: usize, b: usize, c: usize, d: usize) -> usize
    ensures { result ≡ shortest a b c d }
{
    a.min(b.min(c.min(d)))
}

// The record that an opening's inputs and four totals stand for: kept, refused, heard, evaluations.
pub fn book_of(opening: Opening, totals: [u64; 4]) -> Book
    ensures { result ≡ book_in opening totals }
{
    Book {
        spot: opening.spot,
        rate: opening.rate,
        kept: totals[0],
        refused: totals[1],
        heard: totals[2],
        evaluations: totals[3],
    }
}
