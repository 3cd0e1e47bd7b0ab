// No code: specs/ has the promises as statements over the definitions of the calls, and proofs/ their proofs.
#![tactic(auto)]
