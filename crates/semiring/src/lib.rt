// The values that a chart adds up: what a semiring is, and the three that sheets are read with.
#![tactic(auto)]

pub mod cost;
pub mod count;
pub mod semiring;
pub mod semirings;
pub mod yes_no;
