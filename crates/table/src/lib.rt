// The table grammar: a draft takes rules into rows that the caller lends, and once sealed it is a grammar and takes no more.
#![tactic(auto)]

pub mod draft;
mod shape;
pub mod table;
#[cfg(test)]
mod tests;
