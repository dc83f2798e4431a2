// erfc, pdf and cdf on paper: the definitions (specs/), and what document 01 says of them. Crate `normal` has the functions.
#![tactic(auto)]
