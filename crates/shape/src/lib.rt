// The shape of a mesh (document 01, refusals 5 to 8; document 02, 47, 44 and 42), and its pairs of a node and a soil.

#![tactic(auto)]

mod edges;
mod joints;
pub mod marks;
pub mod mesh_checks;
mod nodes;
pub mod pairs;
mod sides;
