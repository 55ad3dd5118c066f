// The derivation file: the text of a tree, and when a text replays. The functions are to come.

#![tactic(auto)]
