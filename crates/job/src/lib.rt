// A job from its bytes to its answer: the commands describe a grammar and entries, and the answer says in how many ways the entries can be derived.
#![tactic(auto)]

pub mod answering;
mod appending;
mod asking;
mod describing;
mod description;
mod entering;
mod loading;
pub mod responding;
mod stacking;
#[cfg(test)]
mod tests;
