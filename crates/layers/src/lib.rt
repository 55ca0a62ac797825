// Layers over a grammar: each holds any grammar by value and is again a grammar.
// The derivations of a layer match, one for one and at equal weight, those of the grammar below that it lets through.
#![tactic(auto)]

pub mod ban;
pub mod bans;
pub mod intersection;
pub mod known;
pub mod promises;
pub mod readings;
pub mod renaming;
pub mod reversal;
