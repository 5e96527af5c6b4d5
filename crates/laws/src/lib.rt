// General laws: no function stands here.
#![tactic(auto)]
