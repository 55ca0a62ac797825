// Deterministic automata: what one means, one that is written step by step, and one that counts a code.
#![tactic(auto)]

pub mod automaton;
pub mod counting;
pub mod table;
