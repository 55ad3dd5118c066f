// Derivation trees as rows of numbers, one for each application, numbered from the top; and the replay of rows. No
// functions.

#![tactic(auto)]
