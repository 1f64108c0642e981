// Lines of a console, taken apart into words, numbers, plan lines and kernel lines.
#![tactic(auto, unfolding(crate::specs::Parts::FailsIn))]

pub mod fault;
pub mod kernel_line;
pub mod plan_line;
pub mod words;
