// What the two programs print for the texts of their files: definitions, and what holds of the answers.

#![tactic(auto)]
