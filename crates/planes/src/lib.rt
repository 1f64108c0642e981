// The kernel of bit planes: one word for each bit of the codes, and counts of the ones that two words share.
#![tactic(auto)]

pub mod planes;
mod planes_row;
mod words;
