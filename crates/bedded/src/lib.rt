// Strength by direction (document 02, N14): the rows of the planes of a soil that is stronger one way, as numbers.

#![tactic(auto)]

pub mod beds;
pub mod plane_rows;
pub mod planes;
