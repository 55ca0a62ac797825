// What a job is answered, and the text of the answer.
#![tactic(auto)]

pub mod report;
#[cfg(test)]
mod tests;
pub mod text;
