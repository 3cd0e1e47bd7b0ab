// No code: specs/ has the published rules as a grammar, and proofs/ the laws that formats meet and what follows from them.
#![tactic(auto)]
