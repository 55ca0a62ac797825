// The chart: a table over slots that the caller provides, with a cell for each span of entries and nonterminal. Each call keeps every cell in use the total of its derivations.
#![tactic(auto)]

mod appends;
mod cells;
pub mod chart;
mod column;
mod columns;
mod edits;
mod filling;
mod gathered;
mod listing;
mod reads;
mod replaces;
mod shares;
pub mod slots;
mod span;
mod sums;
