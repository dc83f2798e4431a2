// The words of an answer.
#![tactic(auto, unfolding(limits::proofs::Float::of_bits, limits::proofs::Float::round))]

ghost use Rattle.std.specs.Prelude.{◌≡◌};
ghost use Rattle.floats.specs.Operators.{decimal};
ghost use Rattle.blackscholes.specs.Checks.{pricing, sensitivities};
ghost use Rattle.chart.specs.Build.{no_lengths};
ghost use Rattle.ledger.specs.Money.{no_money};
ghost use Rattle.outcomes.specs.Told.{told_outcome};
ghost use Rattle.rows.specs.Told.{told_implied};
ghost use Rattle.wording.specs.Words.{value_words, money_words, offer_words, greeks_words, build_words, cell_words, ends_words};

use blackscholes::{Greeks, OptionParams};
use brent::{Answer, Solution};
use chart::Lengths;
use frames::bits_of;
use ledger::Money;
use limits::Refusal;
use outcomes::Numbered;
use rows::Refused;

// From the two rows that hosts are answered, entry by entry.
#[tactic(auto, unfolding(ledger::specs::Rows::numbers_of, ledger::specs::Rows::evidence_of))]
pub fn offer_words<E: Refused>(answer: Result<Solution, E>) -> [u64; 6]
    ensures { result ≡ offer_words (told_implied E.number_told E.evaluations_told answer) }
{
    let [number, evaluations] = rows::numbers_of(answer);
    let [volatility, error, c, c_error] = rows::evidence_of(answer);
    [
        number,
        evaluations,
        bits_of(volatility),
        bits_of(error),
        bits_of(c),
        bits_of(c_error),
    ]
}

pub fn build_words<E: Numbered>(answer: Result<Lengths, E>) -> [u64; 3]
    ensures { result ≡ build_words (told_outcome E.number_told (λ _. no_lengths) answer) }
{
    let lengths = outcomes::values_of(answer, Lengths::default());
    [
        outcomes::number_of(answer),
        lengths.strikes as u64,
        lengths.expiries as u64,
    ]
}

pub fn cell_words(value: f64, count: u64) -> [u64; 2]
    ensures { result ≡ cell_words value count }
{
    [bits_of(value), count]
}

// A price's or a reading's.
pub fn value_words<E: Numbered>(answer: Result<f64, E>) -> [u64; 2]
    ensures { result ≡ value_words (told_outcome E.number_told (λ _. decimal 0 1) answer) }
{
    let value = outcomes::values_of(answer, 0.0);
    [outcomes::number_of(answer), bits_of(value)]
}

pub fn money_words<E: Numbered>(answer: Result<Money, E>) -> [u64; 3]
    ensures { result ≡ money_words (told_outcome E.number_told (λ _. no_money) answer) }
{
    let money = outcomes::values_of(answer, Money::default());
    [
        outcomes::number_of(answer),
        bits_of(money.strike),
        bits_of(money.volatility),
    ]
}

pub fn price_words(option: OptionParams) -> [u64; 2]
    ensures { result ≡ value_words (pricing option) }
{
    value_words(greeks::bsm_price(option))
}

pub fn greeks_words(option: OptionParams) -> [u64; 8]
    ensures { result ≡ greeks_words (sensitivities option) }
{
    let answer = greeks::bsm_greeks(option);
    let greeks = outcomes::values_of(answer, Greeks::default());
    [
        outcomes::number_of(answer),
        bits_of(greeks.delta),
        bits_of(greeks.gamma),
        bits_of(greeks.theta),
        bits_of(greeks.vega),
        bits_of(greeks.rho),
        bits_of(greeks.vanna),
        bits_of(greeks.volga),
    ]
}

// The prices at the ends of a solver, which a fresh one has at a, where it asks first, and at b, where it asks next.
#[tactic(auto, unfolding(brent::specs::Outcome::outcome, brent::specs::Feed::start, brent::specs::Feed::fresh, brent::specs::Feed::refuse))]
pub fn ends_words(market: f64, option: OptionParams) -> [u64; 3]
    ensures { result ≡ ends_words market option }
{
    match solver::start(market) {
        Answer::Ask { volatility, next } => {
            let [number, low] = price_words(OptionParams {
                volatility,
                ..option
            });
            let [_, high] = price_words(OptionParams {
                volatility: next.points.b,
                ..option
            });
            [number, low, high]
        }
        Answer::Ended { .. } => [u64::from(Refusal::Price), 0, 0],
    }
}
