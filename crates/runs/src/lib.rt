// Runs of calls: what is promised of a chart after every list of calls, accepted or refused.
#![tactic(auto)]

mod calls;
mod perform;
pub mod replay;
mod run;
