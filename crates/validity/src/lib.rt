// Question 8 for a lent chart: how many items it holds, and whether each of its items names what exists: definitions
// and theorems.

#![tactic(auto)]
