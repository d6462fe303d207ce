// The strength rows as whole numbers: the sides of the polygons, a claim whose lines have passed and its field, and the
// strength rows of a node and a soil, by the kind of the soil.

#![tactic(auto)]

pub mod claims;
pub mod fields;
pub mod pair_planes;
pub mod polygons;
pub mod steps;
pub mod strength_numbers;
pub mod strength_rows;
