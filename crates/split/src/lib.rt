// The kernel of signed split sums: two signed codes a word, and for each place of a group a lane of its own.
#![tactic(auto)]

mod bytes;
pub mod split;
mod split_row;
