// What an offer is answered and the record after it, by value: every check, then the solver. Crate `book` writes what is kept.
#![tactic(auto)]

ghost use Rattle.std.specs.Prelude.{◌≡◌, ◌+◌, ◌<◌, false, not, leb};
ghost use Rattle.limits.specs.Checks.{none};
ghost use Rattle.limits.specs.Refusals.{number, number_in};
ghost use Rattle.brent.specs.Outcome.{outcome_of_implied};
ghost use Rattle.ledger.specs.Model.{bsm, bad_price, bad_volatility};
ghost use Rattle.ledger.specs.Book.{shorter, is_broken, own_refusal, offer_refusal, answer, offer_outcome, opening_of, book_after};
ghost use Rattle.ledger.specs.Calls.{Replies, Counted, Solves};

use blackscholes::OptionParams;
use brent::{Solution, Unsolved};
use ledger::{Book, Heard, Offer, Terms};
use limits::{Refusal, check};

// ---- the checks of an offer

// 1, of the columns' lengths: this crate is handed no slices, and admission, which tells 1 of a build's, sees no offer.
pub fn is_short(strikes: usize, expiries: usize, volatilities: usize) -> bool
    ensures { result ≡ shorter strikes expiries volatilities }
{
    strikes < 1024 || expiries < 1024 || volatilities < 1024
}

// 2. The earlier tests keep the sum and the product from wrapping.
#[tactic(auto, unfolding(ledger::specs::Book::is_broken))]
pub fn is_broken(b: Book) -> bool
    ensures { result ≡ is_broken b }
{
    b.kept > 1024
        || b.heard > 60000
        || b.refused > b.heard
        || b.kept + b.refused != b.heard
        || b.evaluations > 52 * b.heard
        || !limits::is_spot(b.spot)
        || !limits::is_rate(b.rate)
}

// 5: a market price. A volatility has none.
fn bad_price(terms: Terms) -> bool
    ensures { result ≡ bad_price terms }
{
    match terms {
        Terms::Volatility { .. } => false,
        Terms::Price { market, .. } => !limits::is_price(market),
    }
}

// 10: an offered volatility. A price has none yet.
fn bad_volatility(terms: Terms) -> bool
    ensures { result ≡ bad_volatility terms }
{
    match terms {
        Terms::Volatility { v } => !limits::is_volatility(v),
        Terms::Price { .. } => false,
    }
}

// The offer's own: 5, 7, 8, 10.
#[tactic(auto, unfolding(ledger::specs::Book::own_refusal, limits::specs::Checks::first))]
fn check_own(o: Offer) -> Result<(), Refusal>
    ensures { number_in result ≡ own_refusal o }
{
    check(!bad_price(o.terms), Refusal::Price)?;
    check(limits::is_strike(o.strike), Refusal::Strike)?;
    check(limits::is_expiry(o.expiry), Refusal::Expiry)?;
    check(!bad_volatility(o.terms), Refusal::Volatility)
}

// 1 to 4, then the offer's own. Whether 1 holds is handed in, here and below: the columns are book's, which this crate does not
// see. Record, flag and offer stay three parameters, as `decide` takes them: a struct would be made there to be taken apart.
#[tactic(auto, unfolding(ledger::specs::Book::offer_refusal, limits::specs::Checks::first))]
fn check_offer(short: bool, b: Book, o: Offer) -> Result<(), Refusal>
    ensures { number_in result ≡ offer_refusal short b o }
{
    check(!short, Refusal::ShortColumn)?;
    check(!is_broken(b), Refusal::OutOfBounds)?;
    check(b.heard < 60000, Refusal::BookClosed)?;
    check(b.kept < 1024, Refusal::BookFull)?;
    check_own(o)
}

// ---- what an offer is answered

// What the terms come to, once no check holds: the volatility offered, or the solver's answer on the model's prices.
fn solve(b: Book, o: Offer) -> Result<Solution, Unsolved>
    requires { (is_broken b ≡ false) × (own_refusal o ≡ none) }
    ensures { Solves (answer bsm (opening_of b) o) (outcome_of_implied result) }
{
    match o.terms {
        Terms::Volatility { v } => Ok(Solution {
            volatility: v,
            error: 0.0,
            c: 0.0,
            c_error: 0.0,
            evaluations: 0,
        }),
        Terms::Price { kind, market } => greeks::implied_volatility(
            market,
            OptionParams {
                spot: b.spot,
                strike: o.strike,
                time_to_expiry: o.expiry,
                risk_free_rate: b.rate,
                volatility: 0.0,
                option_type: kind,
            },
        ),
    }
}

// All checks, then the solver.
#[tactic(auto, using(crate::proofs::Offering::by_check, crate::proofs::Offering::by_check_counted))]
fn answer(b: Book, short: bool, o: Offer) -> Result<Solution, Unsolved>
    ensures outcome { outcome_of_implied result ≡ offer_outcome bsm short b o }
    ensures counted { Counted b (outcome_of_implied result) }
{
    check_offer(short, b, o)?;
    solve(b, o)
}

// ---- what an offer leaves

// 1 to 3 keep the record: an offer that another refusal turns down is counted in it.
fn is_counted(refusal: Refusal) -> bool
    ensures { result ≡ not (leb (number refusal) 3) }
{
    !matches!(
        refusal,
        Refusal::ShortColumn | Refusal::OutOfBounds | Refusal::BookClosed
    )
}

// The record after an answer.
#[tactic(auto, unfolding(brent::specs::Outcome::outcome_of_implied, brent::specs::Outcome::zeros, ledger::specs::Book::book_after))]
fn after(b: Book, answer: Result<Solution, Unsolved>) -> Book
    requires { Counted b (outcome_of_implied answer) }
    ensures { result ≡ book_after b (outcome_of_implied answer) }
{
    match answer {
        Ok(solution) => Book {
            kept: b.kept + 1,
            heard: b.heard + 1,
            evaluations: b.evaluations + solution.evaluations,
            ..b
        },
        Err(unsolved) if is_counted(unsolved.refusal) => Book {
            refused: b.refused + 1,
            heard: b.heard + 1,
            evaluations: b.evaluations + unsolved.evaluations,
            ..b
        },
        Err(_) => b,
    }
}

// The answer to an offer and the record after it, by value. `short` says whether 1 holds of the columns.
pub fn decide(b: Book, short: bool, o: Offer) -> Heard
    ensures { Replies (offer_outcome bsm short b o) b result }
{
    let answer = answer(b, short, o);
    Heard {
        book: after(b, answer),
        answer,
    }
}
