// What a rule, a grammar and a weighing are. specs/ says what a derivation is and what it is to add up the weights of all of them.
#![tactic(auto)]

pub mod grammar;
pub mod promises;
pub mod refusal;
pub mod rule;
pub mod weighing;
