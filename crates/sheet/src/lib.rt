// Document 01's sheet of examples, proved of the definitions, and the wrong matchers that the contract shuts out.
// No code: the examples are data in specs/Sheet.antt, the theorems are in proofs/.
#![tactic(auto)]
