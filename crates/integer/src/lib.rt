// Definitions on whole numbers that every other crate's contracts cite (specs/), and their laws (proofs/). There is no
// code.

#![tactic(auto)]
