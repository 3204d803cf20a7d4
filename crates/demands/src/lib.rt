// The three demands of the acceptance inspector, as theorems about the contracts of the check, the matcher, the reader, the
// writer and the host call. No code: the page is proofs/Demands.antt.
#![tactic(auto)]
