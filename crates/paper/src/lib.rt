// The theory has no code: definitions and promises stand in specs/, their proofs in proofs/.
#![tactic(auto)]
