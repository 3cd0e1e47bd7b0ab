// No code: specs/ has the machine-room file and what each call on it answers, and proofs/ how a file is read. `Counted` and specs/Find.antt stand ahead of the code: no call answers by them yet, and no promise holds them.
#![tactic(auto)]
