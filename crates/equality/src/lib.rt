// The equality rows of a mesh as numbers, and what a row gives with a field and with a multiplier.

#![tactic(auto)]

pub mod axes;
pub mod elements;
pub mod equality_rows;
pub mod expressions;
pub mod geometry;
pub mod parts;
pub mod row;
pub mod row_sums;
pub mod sides;
mod tractions;
