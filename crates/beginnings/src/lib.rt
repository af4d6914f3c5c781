// Beginnings of arrangements, their dictionary order, the count of steps and the first certificate, with graphs nowhere in it: there is no code here, the definitions stand in specs/ and what is proved of them in proofs/.

#![tactic(auto)]
