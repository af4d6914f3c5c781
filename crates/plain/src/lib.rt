// Plain pairs in row order as a scheme of comparison: there is no code here, definitions stand in specs/ and laws in proofs/.

#![tactic(auto)]
