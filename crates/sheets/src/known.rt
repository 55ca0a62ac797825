// Known sheets with their counts and costs.
use crate::rules::known_rules;
use chart::chart::Chart;
use grammar::grammar::Grammar;
use grammar::refusal::Refusal;
use grammar::rule::Rule;
use grammar::weighing::{CostWeighing, UnitWeighing, Weighing};
use semiring::cost::Cost;
use semiring::count::Count;
use semiring::semiring::Semiring;
use std::process::Abort;
use std::test::Fail;

// So many entries with these bits, their count and their cost.
#[derive(Clone, Copy)]
pub struct Sheet {
    pub bits: u32,
    pub times: usize,
    pub count: u64,
    pub cost: u32,
}

const SHEETS: [Sheet; 7] = [
    Sheet {
        bits: 0b01,
        times: 0,
        count: 0,
        cost: u32::MAX,
    },
    Sheet {
        bits: 0b01,
        times: 1,
        count: 1,
        cost: 2,
    },
    Sheet {
        bits: 0b01,
        times: 3,
        count: 2,
        cost: 8,
    },
    Sheet {
        bits: 0b10,
        times: 4,
        count: 5,
        cost: 15,
    },
    Sheet {
        bits: 0b11,
        times: 2,
        count: 4,
        cost: 5,
    },
    Sheet {
        bits: 0b01,
        times: 37,
        count: 11959798385860453492,
        cost: 110,
    },
    Sheet {
        bits: 0b01,
        times: 38,
        count: u64::MAX,
        cost: 113,
    },
];

// The total of a sheet by a weighing.
fn total<S: Semiring, G: Grammar, W: Weighing<Value = S>>(
    slots: &mut [S],
    grammar: &G,
    weighing: &W,
    sheet: Sheet,
) -> Result<S, Refusal> {
    let mut chart = Chart::new(slots, grammar);
    for _ in 0..sheet.times {
        chart.append(grammar, weighing, sheet.bits)?;
    }
    chart.total(grammar)
}

// The grammar gives the sheet its count and its cost.
pub(crate) fn check_sheet<G: Grammar>(
    rt: &impl Abort,
    grammar: &G,
    sheet: Sheet,
) -> Result<(), Fail> {
    let mut count_slots = [Count::zero(); 741];
    let mut cost_slots = [Cost::zero(); 741];
    assert_eq!(rt;
        total(&mut count_slots, grammar, &UnitWeighing::new(), sheet)?.value,
        sheet.count
    );
    assert_eq!(rt;
        total(&mut cost_slots, grammar, &CostWeighing {}, sheet)?.value,
        sheet.cost
    );
    Ok(())
}

#[test]
fn counts_and_costs(rt: HostRuntime) -> Result<(), Fail> {
    let mut rows = [Rule::BLANK; 3];
    let grammar = known_rules(&mut rows);
    for sheet in SHEETS {
        check_sheet(&rt, &grammar, sheet)?;
    }
    Ok(())
}
