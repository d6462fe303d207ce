// What multipliers say: the sums over all rows, the checks of a dual and its limit, and the rows that are open.

#![tactic(auto)]

mod equality_sums;
pub mod multiplier_checks;
pub mod multiplier_sums;
pub mod open_rows;
pub mod plane_sums;
pub mod sums;
pub mod weighted_rows;
