// Which literals of a walk a clause needs, with no graph in it: there is no code here, definitions stand in specs/ and laws in proofs/.

#![tactic(auto)]
