// Kernels that pack a group of codes into the lanes of one word, so that one multiplication adds up all their products.
#![tactic(auto)]

pub mod accumulator;
mod groups;
pub mod kernel;
mod lanes;
pub mod make;
pub mod p1;
pub mod p2;
mod row;
