// The examples of the rules, worked: no code. The jobs stand in specs/, what they are answered in proofs/.
#![tactic(auto)]
