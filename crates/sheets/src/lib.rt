// Tests over whole sheets: known entries with known answers, run through grammars, layers, chart, tree and lists of calls.
#![tactic(auto)]

#[cfg(test)]
mod known;
#[cfg(test)]
mod layered;
#[cfg(test)]
mod replayed;
#[cfg(test)]
mod rules;
#[cfg(test)]
mod sizes;
#[cfg(test)]
mod starts;
#[cfg(test)]
mod trees;
