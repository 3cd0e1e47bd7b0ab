// No code: specs/ has what the calls on a machine-room file promise, and proofs/ that it holds.
#![tactic(auto)]
