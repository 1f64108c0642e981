// Codes and what is said of them: their ends, the two sides of a product, zero points, and the fixed facts of a kernel.
#![tactic(auto)]

pub mod ends;
pub mod facts;
pub mod shape;
pub mod side;
pub mod zero_points;
