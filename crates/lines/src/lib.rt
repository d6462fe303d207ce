// The lines of a mesh and of a claim: the table of their groups, and their checks, refusals 1 to 4 and 11 to 13.

#![tactic(auto)]

pub mod layout;
pub mod line_checks;
pub mod line_tests;
