// The elements of a mesh as polygons: their corners, the left turns that 5 asks, and that no two lie on each other
// (document 02, N10: 47).

#![tactic(auto)]

mod boxes;
pub mod corners;
pub mod overlaps;
pub mod turns;
