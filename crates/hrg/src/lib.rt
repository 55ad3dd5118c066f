// Hyperedge replacement grammars, their chart parsing and its theorems: definitions in specs/, proofs in proofs/, no
// code.

#![tactic(auto)]
