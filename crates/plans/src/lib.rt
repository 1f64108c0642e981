// Plans: what is asked for, the questions that are put to it in order, and the plans that pass them all.
#![tactic(auto)]

pub mod any_plan;
mod check;
pub mod checked_plan;
pub mod kind;
mod lane;
mod layout;
pub mod plan;
mod questions;
pub mod refusal;
pub mod request;
mod sum;
