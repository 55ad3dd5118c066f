// Keys of items: two items that a rule joins lie on a key that the one has and the other asks for. Definitions and
// laws, no code.

#![tactic(auto)]
