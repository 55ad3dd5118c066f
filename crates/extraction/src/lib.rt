// The derivation tree that the partners of a chart's records spell, and its applications listed from the top:
// definitions and theorems.

#![tactic(auto)]
