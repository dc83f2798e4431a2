// The gap filler on paper: the sweeps of document 01, and which value a gap takes (specs/). Crate `filler` has the call.
#![tactic(auto)]
