// What a line asks, by its name and words.
#![tactic(auto)]

ghost use Rattle.std.specs.Prelude.{◌≡◌, eqb, ltb, Some, None, if◌then◌else◌};
ghost use Rattle.ledger.specs.Rows.{kind_of};
ghost use Rattle.wording.specs.Requests.{opening, price_offered, volatility_offered, build, read, money, option, ends, request_of};

use blackscholes::{OptionParams, OptionType};
use frames::float_of;
use ledger::{Offer, Opening, Terms};
use wording::Request;

fn opening(words: &[u64]) -> Option<Request>
    ensures { result ≡ opening words.now }
{
    let &[spot, rate] = words else {
        return None;
    };
    Some(Request::Open(Opening {
        spot: float_of(spot),
        rate: float_of(rate),
    }))
}

// Nearly `volatility_offered`. One function over a closure for the terms was tried. It proves, but its contract requires a closure that can be called and says
// what follows for each function that the closure computes, which each caller would have to name, where these two say `price_offered kind words`.
fn price_offered(kind: OptionType, words: &[u64]) -> Option<Request>
    ensures { result ≡ price_offered kind words.now }
{
    let &[strike, expiry, market] = words else {
        return None;
    };
    Some(Request::Offer(Offer {
        strike: float_of(strike),
        expiry: float_of(expiry),
        terms: Terms::Price {
            kind,
            market: float_of(market),
        },
    }))
}

fn volatility_offered(words: &[u64]) -> Option<Request>
    ensures { result ≡ volatility_offered words.now }
{
    let &[strike, expiry, volatility] = words else {
        return None;
    };
    Some(Request::Offer(Offer {
        strike: float_of(strike),
        expiry: float_of(expiry),
        terms: Terms::Volatility {
            v: float_of(volatility),
        },
    }))
}

fn build(words: &[u64]) -> Option<Request>
    ensures { result ≡ build words.now }
{
    match words {
        [] => Some(Request::Build),
        _ => None,
    }
}

fn read(words: &[u64]) -> Option<Request>
    ensures { result ≡ read words.now }
{
    let &[strike, expiry] = words else {
        return None;
    };
    Some(Request::Read {
        strike: float_of(strike),
        expiry: float_of(expiry),
    })
}

fn money(words: &[u64]) -> Option<Request>
    ensures { result ≡ money words.now }
{
    let &[expiry] = words else {
        return None;
    };
    Some(Request::Money {
        expiry: float_of(expiry),
    })
}

// A kind's word: 0 for a call, 1 for a put. No `TryFrom`: neither type is of this crate.
fn kind(word: u64) -> Option<OptionType>
    ensures { result ≡ (if ltb 1 word then None else Some (kind_of (eqb word 1))) }
{
    match word {
        0 => Some(OptionType::Call),
        1 => Some(OptionType::Put),
        _ => None,
    }
}

#[tactic(auto, unfolding(ledger::specs::Rows::option_of))]
fn option(words: &[u64]) -> Option<OptionParams>
    ensures { result ≡ option words.now }
{
    let &[put, spot, strike, expiry, rate, volatility] = words else {
        return None;
    };
    Some(OptionParams {
        option_type: kind(put)?,
        spot: float_of(spot),
        strike: float_of(strike),
        time_to_expiry: float_of(expiry),
        risk_free_rate: float_of(rate),
        volatility: float_of(volatility),
    })
}

fn ends(words: &[u64]) -> Option<Request>
    ensures { result ≡ ends words.now }
{
    let &[put, strike, expiry, market] = words else {
        return None;
    };
    Some(Request::Ends {
        kind: kind(put)?,
        strike: float_of(strike),
        expiry: float_of(expiry),
        market: float_of(market),
    })
}

// What a line of this name with these words asks.
#[tactic(auto, unfolding(wording::specs::Requests::request_of), using(crate::proofs::Names::six))]
pub fn request_of(name: &[u8; 6], words: &[u64]) -> Option<Request>
    ensures { result ≡ request_of name.now words.now }
{
    match name {
        b"open  " => opening(words),
        b"call  " => price_offered(OptionType::Call, words),
        b"put   " => price_offered(OptionType::Put, words),
        b"vol   " => volatility_offered(words),
        b"build " => build(words),
        b"read  " => read(words),
        b"money " => money(words),
        b"price " => option(words).map(Request::Price),
        b"greeks" => option(words).map(Request::Greeks),
        b"ends  " => ends(words),
        _ => None,
    }
}
