// The graphs K1 to K10 of 01 as one table: texts in, answers, steps and bytes out, by the definitions that the
// functions' contracts cite.

#![tactic(auto)]
