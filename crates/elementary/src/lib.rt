// exp and ln on paper: the tables with their rule, the definitions (specs/), and what document 01 says of them. Crate `exponential` has the functions.
#![tactic(auto)]
