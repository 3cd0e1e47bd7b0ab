// No code: specs/ says how C takes an answer apart and that nothing is lost on the way, and proofs/ proves it.
#![tactic(auto)]
