// Runs on kernels of any kind: from a plan, whatever its kind, to the law over any list of calls.
#![tactic(auto)]

pub mod any_run;
