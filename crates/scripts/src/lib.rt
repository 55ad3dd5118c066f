// The derivation file as rows of numbers: its text, and the rows of a text. No functions.

#![tactic(auto)]
