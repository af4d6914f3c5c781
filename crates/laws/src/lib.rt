// General laws that say nothing of graphs, for the crates above: there is no code here, and the laws stand in specs/.

#![tactic(auto)]
