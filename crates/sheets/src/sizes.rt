// Each refusal, the sizes at which it begins, and a stack of all four layers.
use crate::rules::known_readings;
use automata::automaton::Automaton;
use automata::counting::CountingAutomaton;
use automata::table::TableAutomaton;
use grammar::grammar::Grammar;
use grammar::refusal::Refusal;
use grammar::rule::{Expansion, Rule};
use layers::ban::Ban;
use layers::bans::Bans;
use layers::intersection::Intersection;
use layers::readings::Readings;
use layers::renaming::Renaming;
use layers::reversal::Reversal;

mod wide;

use wide::Wide;

const OUT: Option<Refusal> = Some(Refusal::NumberOutOfRange);

const LARGE: Option<Refusal> = Some(Refusal::TooLarge);

const FEWER: Option<Refusal> = Some(Refusal::FewerCodes);

#[test]
fn table_numbers(rt: HostRuntime) {
    let rows = [
        (0, 1, 0, 0, OUT),
        (9, 1, 0, 0, OUT),
        (1, 0, 0, 0, OUT),
        (1, 33, 0, 0, OUT),
        (2, 1, 2, 0, OUT),
        (2, 1, 0, 4, OUT),
        (2, 1, 1, 3, None),
        (8, 32, 7, 255, None),
    ];
    for (states, codes, start, accepting, want) in rows {
        let (_, why) = TableAutomaton::new(states, codes, start, accepting);
        assert_eq!(rt; why, want);
    }
}

#[test]
fn table_steps(rt: HostRuntime) {
    let (mut automaton, _) = TableAutomaton::new(2, 2, 0, 2);
    let rows = [
        (2, 0, 0, Err(Refusal::NumberOutOfRange)),
        (0, 2, 0, Err(Refusal::NumberOutOfRange)),
        (0, 0, 2, Err(Refusal::NumberOutOfRange)),
        (0, 1, 1, Ok(())),
    ];
    for (from, code, to, want) in rows {
        assert_eq!(rt; automaton.write(from, code, to), want);
    }
}

#[test]
fn counting_numbers(rt: HostRuntime) {
    let rows = [
        (0, 0, 0, OUT),
        (33, 0, 0, OUT),
        (2, 2, 0, OUT),
        (2, 0, 8, OUT),
        (32, 31, 7, None),
    ];
    for (codes, code, most, want) in rows {
        let (_, why) = CountingAutomaton::new(codes, code, most);
        assert_eq!(rt; why, want);
    }
}

#[test]
fn readings_numbers(rt: HostRuntime) {
    for (count, want) in [(0, OUT), (33, OUT), (1, None), (32, None)] {
        let (_, why) = Readings::new(count);
        assert_eq!(rt; why, want);
    }
}

#[test]
fn readings_written(rt: HostRuntime) {
    let (mut readings, _) = Readings::new(3);
    let rows = [
        (3, 0, Err(Refusal::NumberOutOfRange)),
        (0, 32, Err(Refusal::NumberOutOfRange)),
        (2, 31, Ok(())),
    ];
    for (recorder, code, want) in rows {
        assert_eq!(rt; readings.read_as(recorder, code), want);
    }
}

#[test]
fn seventeenth_ban(rt: HostRuntime) {
    let mut bans = Bans::none();
    for number in 0..16 {
        assert_eq!(rt; bans.add(number), Ok(()));
    }
    assert_eq!(rt; bans.add(0), Err(Refusal::TooManyBans));
}

// The largest intersections that are laid, the smallest that are not, and which refusal comes first.
#[test]
fn intersection_sizes(rt: HostRuntime) {
    let rows = [
        (4096, 16777216, 1, 2, None),
        (1024, 2097152, 2, 2, None),
        (64, 32768, 8, 2, None),
        (1025, 3, 2, 2, LARGE),
        (1, 2097153, 2, 2, LARGE),
        (65, 3, 8, 2, LARGE),
        (1, 3, 1, 1, FEWER),
        (1025, 3, 2, 1, FEWER),
    ];
    for (nonterminals, bound, states, codes, want) in rows {
        let (automaton, _) = TableAutomaton::new(states, codes, 0, 1);
        let (layer, why) = Intersection::lay(Wide::new(nonterminals, bound), automaton);
        assert_eq!(rt; why, want);
        assert_eq!(rt; is_blank(&layer), want.is_some());
    }
}

// The largest renamings that are laid, and the smallest that are not.
#[test]
fn renaming_sizes(rt: HostRuntime) {
    let rows = [
        (16777216, 1, None),
        (8388608, 2, None),
        (524288, 32, None),
        (8388609, 2, LARGE),
        (524289, 32, LARGE),
    ];
    for (bound, count, want) in rows {
        let (readings, _) = Readings::new(count);
        let (layer, why) = Renaming::lay(Wide::new(1, bound), readings);
        assert_eq!(rt; why, want);
        assert_eq!(rt; is_blank(&layer), want.is_some());
    }
}

// Whether a layer is blank.
fn is_blank<G: Grammar>(grammar: &G) -> bool {
    let empty = grammar.nonterminals() == 1 && grammar.codes() == 1 && grammar.bound() == 0;
    empty && !grammar.is_start(0) && grammar.rule(0).is_none()
}

// Rules 0: S to S S, 1: S to 0, 2: S to 1, with rule 1 banned, one code 1 counted, codes read as above, and all reversed.
#[test]
fn stack_of_four(rt: HostRuntime) {
    let mut bans = Bans::none();
    let _ = bans.add(1);
    let (automaton, _) = CountingAutomaton::new(2, 1, 1);
    let (crossed, _) = Intersection::lay(Ban::lay(Wide::new(1, 3), bans), automaton);
    let (renamed, _) = Renaming::lay(crossed, known_readings());
    let stack = Reversal::lay(renamed);
    assert_eq!(rt;
        (stack.nonterminals(), stack.codes(), stack.bound()),
        (4, 3, 72)
    );
    assert_eq!(rt;
        (stack.is_start(0), stack.is_start(1), stack.is_start(3)),
        (false, true, false)
    );
    let pair = Rule {
        lhs: 1,
        expansion: Expansion::Pair { left: 3, right: 1 },
        cost: 1,
        bottom: 0,
    };
    let leaf = Rule {
        lhs: 1,
        expansion: Expansion::Leaf { code: 2 },
        cost: 3,
        bottom: 2,
    };
    let rows = [
        (9, Some(pair)),
        (10, None),
        (24, None),
        (53, Some(leaf)),
        (72, None),
    ];
    for (number, want) in rows {
        assert_eq!(rt; stack.rule(number), want);
    }
}
