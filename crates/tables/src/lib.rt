// Tables of a grammar and a graph: questions 3 to 7 judged, and question 8's check.

#![tactic(auto)]

pub mod checking;
pub mod judging;
mod marks;
mod plans;
