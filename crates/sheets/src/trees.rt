// A tree with ties in its start, its rules and its cuts, and trees that are refused.
use crate::rules::{UNTOUCHED, known_rules};
use crate::starts::EveryStart;
use chart::chart::Chart;
use grammar::grammar::Grammar;
use grammar::refusal::Refusal;
use grammar::rule::{Expansion, Rule};
use grammar::weighing::CostWeighing;
use semiring::cost::Cost;
use semiring::semiring::Semiring;
use std::process::Abort;
use std::test::Fail;
use table::draft::Draft;
use table::table::Table;
use tree::record::Record;
use tree::tree;

// The tree of three entries {0}: start 0 before 1, rules 1 and 4 before 2 and 5, the cut at 1 before that at 2. The last record stays.
const TREE: [Record; 6] = [
    Record {
        begin: 0,
        end: 3,
        bottom: 1,
    },
    Record {
        begin: 0,
        end: 1,
        bottom: 4,
    },
    Record {
        begin: 1,
        end: 3,
        bottom: 1,
    },
    Record {
        begin: 1,
        end: 2,
        bottom: 4,
    },
    Record {
        begin: 2,
        end: 3,
        bottom: 4,
    },
    UNTOUCHED,
];

// So many entries with these bits, and the refusal of their tree, with four records, by the number by which users know it.
#[derive(Clone, Copy)]
struct Refused {
    bits: u32,
    times: usize,
    number: u8,
}

const REFUSED: [Refused; 4] = [
    Refused {
        bits: 0b01,
        times: 0,
        number: 13,
    },
    Refused {
        bits: 0b10,
        times: 2,
        number: 13,
    },
    Refused {
        bits: 0b10,
        times: 3,
        number: 13,
    },
    Refused {
        bits: 0b01,
        times: 3,
        number: 14,
    },
];

// Two nonterminals, 0 and 1, that read the same at the same cost; 0 has each rule twice.
fn tied_rules(rows: &mut [Rule]) -> Table<'_> {
    let mut draft = Draft::new(rows, 2, 2, 0);
    let _ = draft.add(1, Expansion::Pair { left: 1, right: 1 }, 1);
    let _ = draft.add(0, Expansion::Pair { left: 0, right: 0 }, 1);
    let _ = draft.add(0, Expansion::Pair { left: 0, right: 0 }, 1);
    let _ = draft.add(1, Expansion::Leaf { code: 0 }, 2);
    let _ = draft.add(0, Expansion::Leaf { code: 0 }, 2);
    let _ = draft.add(0, Expansion::Leaf { code: 0 }, 2);
    draft.seal()
}

// The tree of so many entries with these bits, of a chart for one grammar, shown another.
fn tree_of<G: Grammar, H: Grammar>(
    own: &G,
    shown: &H,
    bits: u32,
    times: usize,
    records: &mut [Record],
) -> Result<usize, Refusal> {
    let mut slots = [Cost::new(0); 12];
    let mut chart = Chart::new(&mut slots, own);
    for _ in 0..times {
        chart.append(own, &CostWeighing {}, bits)?;
    }
    tree(&chart, shown, &CostWeighing {}, records)
}

// The number of the refusal, or 0, and the four records are as they were.
fn refusal_of<G: Grammar, H: Grammar>(
    rt: &impl Abort,
    own: &G,
    shown: &H,
    bits: u32,
    times: usize,
) -> u8 {
    let mut records = [UNTOUCHED; 4];
    let number = match tree_of(own, shown, bits, times, &mut records) {
        Ok(_) => 0,
        Err(why) => why.number(),
    };
    for record in records {
        assert_eq!(rt; record, UNTOUCHED);
    }
    number
}

#[test]
fn ties(rt: HostRuntime) -> Result<(), Fail> {
    let mut rows = [Rule::BLANK; 6];
    let grammar = EveryStart {
        below: tied_rules(&mut rows),
    };
    let mut records = [UNTOUCHED; 6];
    assert_eq!(rt; tree_of(&grammar, &grammar, 0b01, 3, &mut records)?, 5);
    assert_eq!(rt; records, TREE);
    Ok(())
}

#[test]
fn refusals(rt: HostRuntime) {
    let mut rows = [Rule::BLANK; 6];
    let grammar = EveryStart {
        below: tied_rules(&mut rows),
    };
    for case in REFUSED {
        assert_eq!(rt;
            refusal_of(&rt, &grammar, &grammar, case.bits, case.times),
            case.number
        );
    }
    let mut other_rows = [Rule::BLANK; 3];
    let other = known_rules(&mut other_rows);
    assert_eq!(rt; refusal_of(&rt, &grammar, &other, 0b10, 3), 12);
}
