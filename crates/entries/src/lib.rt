// The entries of a sheet: what an entry is, and the list of entries with the mark of an open trial, which each call tests, answers and changes.
#![tactic(auto)]

pub mod admission;
pub mod call;
mod calls;
pub mod entry;
mod fields;
pub mod list;
mod reads;
pub mod trial;
