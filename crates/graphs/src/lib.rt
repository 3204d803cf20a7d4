// The mathematics of the partition and of unifiers, over a term graph that knows no words.
// No code: definitions are in specs/, theorems in proofs/Theorems.antt.
#![tactic(auto)]
