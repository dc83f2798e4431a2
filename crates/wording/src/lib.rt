// The words of a line, on paper: what a request's name and words ask, and which figure stands at which place of an answer. A float is a word by its bits.
// open: spot, rate. call, put, vol: strike, expiry, value. build. read: strike, expiry. money: expiry. price, greeks: put (0 or 1), spot, strike, expiry, rate,
// volatility. ends: put, strike, expiry, price.
#![tactic(auto)]

use blackscholes::{OptionParams, OptionType};
use ledger::{Offer, Opening};

#[derive(Clone, Copy)]
pub enum Request {
    Open(Opening),
    Offer(Offer),
    Build,
    Read {
        strike: f64,
        expiry: f64,
    },
    Money {
        expiry: f64,
    },
    Price(OptionParams),
    Greeks(OptionParams),
    Ends {
        kind: OptionType,
        strike: f64,
        expiry: f64,
        market: f64,
    },
}
