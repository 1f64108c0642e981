// Kernels: what a kernel means, what its calls answer, and what is written once over any kernel.
#![tactic(auto)]

pub mod kernel;
pub mod lists;
pub mod planned;
pub mod product;
pub mod questions;
pub mod refusal;
pub mod table;
