// What running a stored job answers: definitions and theorems only, over `Result<_, Refusal>`.
#![tactic(auto)]
