// What document 01's ranges say of the model's prices, on paper (specs/): each is finite, so that number 11 is out of the model's reach.
#![tactic(auto)]
