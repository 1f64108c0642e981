// Runs over any kernel: fed with columns as they come, settled, read, resumed or cleared.
#![tactic(auto)]

pub mod calls;
mod checked;
mod feed;
mod kept;
pub mod planned;
pub mod refusal;
pub mod replay;
pub mod run;
mod sums;
