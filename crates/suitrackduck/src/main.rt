// The program: reads the entries {0,1}{0,1} by the rules S to S S (cost 1), S to 0 (cost 2) and S to 1 (cost 3), and prints whether they can be read,
// in how many ways, and at what least cost.
#![tactic(auto)]

use answer::report::Totals;
use chart::chart::Chart;
use entries::call::Call;
use grammar::grammar::Grammar;
use grammar::refusal::Refusal;
use grammar::rule::{Expansion, Rule};
use grammar::weighing::{CostWeighing, UnitWeighing, Weighing};
use runs::replay::{Replayed, replay};
use semiring::cost::Cost;
use semiring::count::Count;
use semiring::semiring::Semiring;
use semiring::yes_no::YesNo;
use std::io;
use table::draft::Draft;
use table::table::Table;

// The entries, each added at the end.
const CALLS: [Call; 2] = [Call::Append(0b11), Call::Append(0b11)];

// The grammar of the three rules, over rows that are lent. The tests of whole sheets have the same rules: a program takes nothing from a crate of tests.
fn rules(rows: &mut [Rule]) -> Result<Table<'_>, Refusal> {
    let mut draft = Draft::new(rows, 1, 2, 0);
    draft.add(0, Expansion::Pair { left: 0, right: 0 }, 1)?;
    draft.add(0, Expansion::Leaf { code: 0 }, 2)?;
    draft.add(0, Expansion::Leaf { code: 1 }, 3)?;
    Ok(draft.seal())
}

// The total of the entries by a weighing. A job asks in the same way, of slots and rules of its own.
fn total<S: Semiring, G: Grammar, W: Weighing<Value = S>>(
    slots: &mut [S],
    grammar: &G,
    weighing: &W,
) -> Result<S, Refusal> {
    let mut chart = Chart::new(slots, grammar);
    let Replayed {
        total,
        cost: _,
        tree: _,
        trial,
    } = replay(
        &mut chart,
        &mut [Cost::zero(); 3],
        grammar,
        weighing,
        &CALLS,
        &mut [],
        &mut [],
    );
    if let Some(trial) = trial {
        chart.keep(trial)?;
    }
    total
}

// Whether the entries can be read, in how many ways, and at what least cost: the totals of three charts.
fn read_entries() -> Result<Totals, Refusal> {
    let mut rows = [Rule::BLANK; 3];
    let grammar = rules(&mut rows)?;
    Ok(Totals {
        read: total(&mut [YesNo::zero(); 3], &grammar, &UnitWeighing::new())?,
        count: total(&mut [Count::zero(); 3], &grammar, &UnitWeighing::new())?,
        cost: total(&mut [Cost::zero(); 3], &grammar, &CostWeighing {})?,
    })
}

// Prints the totals.
fn main(rt: HostRuntime) -> io::Result<()> {
    match read_entries() {
        Ok(totals) => print!(rt; "{totals}"),
        Err(why) => println!(rt; "refused {}", why.number()),
    }
}
