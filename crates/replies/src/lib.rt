// Replies of a console to its lines: what they say, the text of each, and what a kernel replies.
#![tactic(auto)]

mod from_refusals;
pub mod reply;
pub mod respond;
