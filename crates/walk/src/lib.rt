// The walk along a list of pairs, with no graph in it, for the crates above: there is no code here, definitions stand in specs/ and laws in proofs/.

#![tactic(auto)]
