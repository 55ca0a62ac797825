// Lists of at most so many values, which lie in the list itself: nothing is allocated.
#![tactic(auto)]

pub mod list;
