// No code: proofs/ has the worked cases of the machine-room file.
#![tactic(auto)]
