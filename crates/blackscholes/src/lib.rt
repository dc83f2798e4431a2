// The model on paper: the price and the seven greeks of Black and Scholes, implied volatility, what is refused (specs/), and what document 01 says of the
// answers. Crate `greeks` has the functions.
#![tactic(auto)]

#[derive(Clone, Copy, Debug, PartialEq, Eq)]
pub enum OptionType {
    Call,
    Put,
}

#[derive(Clone, Copy)]
pub struct OptionParams {
    pub spot: f64,
    pub strike: f64,
    pub time_to_expiry: f64,
    pub risk_free_rate: f64,
    pub volatility: f64,
    pub option_type: OptionType,
}

#[derive(Clone, Copy, Default)]
pub struct Greeks {
    pub delta: f64,
    pub gamma: f64,
    pub theta: f64,
    pub vega: f64,
    pub rho: f64,
    pub vanna: f64,
    pub volga: f64,
}
