// The borehole table of a mesh (document 02, N8): refusals 46 and 45, and the mesh that is filled from it.

#![tactic(auto)]

pub mod filling;
pub mod heights;
pub mod layer_checks;
pub mod table;
