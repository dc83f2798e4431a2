// A surface on paper: how quotes are sorted, filed and averaged into cells (specs/). Crate `surface` has the calls.
#![tactic(auto)]

// What an accepted build returns: both axis lengths.
#[derive(Clone, Copy, Debug, Default, PartialEq, Eq)]
pub struct Lengths {
    pub strikes: usize,
    pub expiries: usize,
}
