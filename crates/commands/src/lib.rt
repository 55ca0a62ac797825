// Jobs: the commands of one as bytes, and the reader that takes them one by one.
#![tactic(auto)]

pub mod command;
pub mod counting;
pub mod fault;
pub mod reader;
pub mod reading;
pub mod stage;
#[cfg(test)]
mod tests;
