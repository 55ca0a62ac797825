// Putting the entries of a job to its grammar.
ghost use Rattle.std.specs.Prelude.{◌≡◌, ◌≤◌, not, length, ◌==◌};
ghost use Rattle.grammar.specs.Derivations.{EntriesFromStarts};
ghost use Rattle.semiring.specs.YesNos.{of_bool};
ghost use Rattle.semiring.specs.Counts.{count};
ghost use Rattle.semiring.specs.Costs.{cost, none};
ghost use Rattle.grammar.specs.Totals.{TotalOf, weight_of};
ghost use Rattle.grammar.specs.Costs.{by_cost};
ghost use Rattle.runs.specs.Trees.{TreeAfter};
ghost use Rattle.job.specs.Reports.{accepted, UnitTotal, Comes};

use crate::entering::SLOTS;
use answer::report::{Report, Totals};
use chart::chart::Chart;
use entries::call::Call;
use grammar::grammar::Grammar;
use grammar::refusal::Refusal;
use grammar::weighing::UnitWeighing;
use lists::list::List;
use runs::replay::{Replayed, replay};
use semiring::cost::Cost;
use semiring::count::Count;
use semiring::semiring::Semiring;
use semiring::yes_no::YesNo;
use tree::record::Record;

// What the calls come to by the grammar: counts and costs are the slots of two charts. The sample program asks in the same way, of slots and rules of its own.
fn ask<G: Grammar>(
    counts: &mut [Count],
    costs: &mut [Cost],
    grammar: &G,
    calls: &[Call],
    records: &mut [Record],
) -> (Totals, Result<usize, Refusal>)
    ensures count { UnitTotal count (G.meaning grammar.now) (accepted (G.meaning grammar.now) (length counts.old) calls.now) result.0.count }
    ensures cost { TotalOf cost (EntriesFromStarts (G.meaning grammar.now) (accepted (G.meaning grammar.now) (length costs.old) calls.now)) (weight_of cost by_cost (G.meaning grammar.now)) result.0.cost }
    ensures read { result.0.read ≡ of_bool (not (result.0.cost.value == none)) }
    ensures tree { TreeAfter (G.meaning grammar.now) (accepted (G.meaning grammar.now) (length costs.old) calls.now) records.old records.new result.1 }
    ensures few { length (accepted (G.meaning grammar.now) (length counts.old) calls.now) ≤ 64 }
{
    let mut chart = Chart::new(counts, grammar);
    let Replayed {
        total,
        cost,
        tree,
        trial,
    } = replay(
        &mut chart,
        costs,
        grammar,
        &UnitWeighing::new(),
        calls,
        &mut [],
        records,
    );
    // a token can only be handed back
    if let Some(trial) = trial {
        let _ = chart.keep(trial);
    }
    let Ok(count) = total else { unreachable!() };
    let read = YesNo {
        value: !cost.is_none(),
    };
    (Totals { read, count, cost }, tree)
}

// What the calls come to by the grammar.
pub(crate) fn report<G: Grammar>(grammar: &G, calls: &[Call]) -> Report
    ensures { Comes (G.meaning grammar.now) (accepted (G.meaning grammar.now) 4096 calls.now) result }
{
    let mut records = [Record {
        begin: 0,
        end: 0,
        bottom: 0,
    }; 127];
    let (totals, tree) = ask(
        &mut [Count::zero(); SLOTS],
        &mut [Cost::zero(); SLOTS],
        grammar,
        calls,
        &mut records,
    );
    Report {
        totals,
        nodes: List::first(records, tree.unwrap_or(0)),
    }
}
