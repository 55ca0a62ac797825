// Known sheets under an intersection, a ban, a renaming, and a stack of all layers.
use crate::known::{Sheet, check_sheet};
use crate::rules::{known_readings, known_rules};
use automata::counting::CountingAutomaton;
use grammar::grammar::Grammar;
use grammar::rule::Rule;
use layers::ban::Ban;
use layers::bans::Bans;
use layers::intersection::Intersection;
use layers::renaming::Renaming;
use layers::reversal::Reversal;
use std::process::Abort;
use std::test::Fail;

#[test]
fn one_layer(rt: HostRuntime) -> Result<(), Fail> {
    let mut rows = [Rule::BLANK; 3];
    let (automaton, _) = CountingAutomaton::new(2, 1, 1);
    let (crossed, _) = Intersection::lay(known_rules(&mut rows), automaton);
    check_sheet(
        &rt,
        &crossed,
        Sheet {
            bits: 0b11,
            times: 2,
            count: 3,
            cost: 6,
        },
    )?;
    let mut rows = [Rule::BLANK; 3];
    let mut bans = Bans::none();
    let _ = bans.add(0);
    check_sheet(
        &rt,
        &Ban::lay(known_rules(&mut rows), bans),
        Sheet {
            bits: 0b11,
            times: 2,
            count: 0,
            cost: u32::MAX,
        },
    )?;
    let mut rows = [Rule::BLANK; 3];
    let (renamed, _) = Renaming::lay(known_rules(&mut rows), known_readings());
    check_sheet(
        &rt,
        &renamed,
        Sheet {
            bits: 0b011,
            times: 1,
            count: 2,
            cost: 2,
        },
    )
}

// Of the nine words of recorder codes, the five with a code that is read as 1 have one derivation each.
fn check_stack<G: Grammar + Drop>(rt: &impl Abort, bottom: G) -> Result<(), Fail> {
    let (automaton, _) = CountingAutomaton::new(2, 1, 1);
    let (crossed, _) = Intersection::lay(Ban::lay(bottom, Bans::none()), automaton);
    let (renamed, _) = Renaming::lay(crossed, known_readings());
    check_sheet(
        rt,
        &Reversal::lay(renamed),
        Sheet {
            bits: 0b111,
            times: 2,
            count: 5,
            cost: 6,
        },
    )
}

#[test]
fn all_layers(rt: HostRuntime) -> Result<(), Fail> {
    let mut rows = [Rule::BLANK; 3];
    check_stack(&rt, known_rules(&mut rows))
}
