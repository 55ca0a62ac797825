// A list of calls from the beginning, and all that is promised of it.
ghost use Rattle.std.specs.Prelude.{◌≡◌, ℕ, ◌<◌, ◌≤◌, length, is_some, IfOk, Ok, slice_index_or};
ghost use Rattle.grammar.specs.Derivations.{EntriesFromStarts};
ghost use Rattle.semiring.specs.Costs.{cost};
ghost use Rattle.grammar.specs.Totals.{TotalOf, weight_of, by};
ghost use Rattle.grammar.specs.Costs.{by_cost};
ghost use Rattle.layers.specs.Promises.{OneForOneAll, SameWeightAll};
ghost use Rattle.entries.specs.Model.{terms, state, empty};
ghost use Rattle.chart.specs.Stands.{ChartStands};
ghost use Rattle.chart.specs.Reads.{total_answer};
ghost use Rattle.runs.specs.Runs.{run, answers as all_answers};
ghost use Rattle.runs.specs.Trees.{TreeAfter};

use crate::calls::run_anew;
use crate::perform::settle;
use chart::chart::Chart;
use entries::call::Call;
use entries::trial::Trial;
use grammar::grammar::Grammar;
use grammar::refusal::Refusal;
use grammar::weighing::{CostWeighing, Weighing};
use semiring::cost::Cost;
use semiring::semiring::Semiring;
use tree::record::Record;
use tree::tree;

// What a cost chart over the slots comes to after all calls of a list, by the cost weighing: its total, and the answer of its tree.
fn replay_costs<G: Grammar>(
    slots: &mut [Cost],
    grammar: &G,
    calls: &[Call],
    records: &mut [Record],
) -> (Cost, Result<usize, Refusal>)
    ensures total { TotalOf cost (EntriesFromStarts (G.meaning grammar.now) (run (terms (G.meaning grammar.now) (G.meaning grammar.now).nonterminals (length slots.old)) empty calls.now).entries) (weight_of cost by_cost (G.meaning grammar.now)) result.0 }
    ensures tree { TreeAfter (G.meaning grammar.now) (run (terms (G.meaning grammar.now) (G.meaning grammar.now).nonterminals (length slots.old)) empty calls.now).entries records.old records.new result.1 }
{
    let mut chart = Chart::new(slots, grammar);
    let trial = run_anew(&mut chart, grammar, &CostWeighing {}, calls, &mut []);
    let total = chart.total(grammar).unwrap();
    let answer = tree(&chart, grammar, &CostWeighing {}, records);
    settle(&mut chart, trial);
    (total, answer)
}

// The total of a chart that stands for the grammar and the weighing. The contract has the theorems about totals and layers.
fn total_by<'a, S: Semiring, G: Grammar, W: Weighing<Value = S>>(
    chart: &Chart<'a, S>,
    grammar: &G,
    _weighing: &W,
) -> Result<S, Refusal>
    requires { ChartStands S.ring (W.weight _weighing.now) (G.meaning grammar.now) chart.now.entries chart.now.slots.cells.now }
    ensures answer { result ≡ total_answer S.ring (G.meaning grammar.now) chart.now.entries.nonterminals (length chart.now.entries.list.items) chart.now.slots.cells.now }
    ensures total { IfOk result (TotalOf S.ring (EntriesFromStarts (G.meaning grammar.now) (state chart.now.entries).entries) (weight_of S.ring (by (W.weight _weighing.now)) (G.meaning grammar.now))) }
    ensures matches { OneForOneAll }
    ensures weighs { SameWeightAll S.ring }
{
    chart.total(grammar)
}

// What a list of calls comes to: the total, the total of the cost chart and the answer of its tree, and the token of a trial that is left open.
pub struct Replayed<S> {
    pub total: Result<S, Refusal>,
    pub cost: Cost,
    pub tree: Result<usize, Refusal>,
    pub trial: Option<Trial>,
}

// Clears the chart, makes all calls of a list on it, and asks for the total; makes the same calls on a cost chart over `costs`, and asks that for its total and its tree.
// Seven parameters: what it is lent and shown are apart for its callers, who keep the chart, the answers and the records.
pub fn replay<'a, S: Semiring, G: Grammar, W: Weighing<Value = S>>(
    chart: &mut Chart<'a, S>,
    costs: &mut [Cost],
    grammar: &G,
    weighing: &W,
    calls: &[Call],
    answers: &mut [Result<(), Refusal>],
    records: &mut [Record],
) -> Replayed<S>
    ensures after { state chart.new.entries ≡ run (terms (G.meaning grammar.now) chart.old.entries.nonterminals (length chart.old.slots.cells.now)) empty calls.now }
    ensures answered { (k : ℕ) → k < length calls.now → k < length answers.old → slice_index_or answers.new k (Ok tt) ≡ slice_index_or (all_answers (terms (G.meaning grammar.now) chart.old.entries.nonterminals (length chart.old.slots.cells.now)) empty calls.now) k (Ok tt) }
    ensures beyond { (k : ℕ) → length calls.now ≤ k → slice_index_or answers.new k (Ok tt) ≡ slice_index_or answers.old k (Ok tt) }
    ensures held { is_some result.trial ≡ chart.new.entries.trial }
    ensures stands { ChartStands S.ring (W.weight weighing.now) (G.meaning grammar.now) chart.new.entries chart.new.slots.cells.now }
    ensures answer { result.total ≡ total_answer S.ring (G.meaning grammar.now) chart.new.entries.nonterminals (length chart.new.entries.list.items) chart.new.slots.cells.now }
    ensures total { IfOk result.total (TotalOf S.ring (EntriesFromStarts (G.meaning grammar.now) (state chart.new.entries).entries) (weight_of S.ring (by (W.weight weighing.now)) (G.meaning grammar.now))) }
    ensures matches { OneForOneAll }
    ensures weighs { SameWeightAll S.ring }
    ensures cost { TotalOf cost (EntriesFromStarts (G.meaning grammar.now) (run (terms (G.meaning grammar.now) (G.meaning grammar.now).nonterminals (length costs.old)) empty calls.now).entries) (weight_of cost by_cost (G.meaning grammar.now)) result.cost }
    ensures tree { TreeAfter (G.meaning grammar.now) (run (terms (G.meaning grammar.now) (G.meaning grammar.now).nonterminals (length costs.old)) empty calls.now).entries records.old records.new result.tree }
    ensures own { chart.new.entries.nonterminals ≡ chart.old.entries.nonterminals }
    ensures long { length chart.new.slots.cells.now ≡ length chart.old.slots.cells.now }
    ensures named { chart.new.slots.cells.ghost_name ≡ chart.old.slots.cells.ghost_name }
{
    let trial = run_anew(chart, grammar, weighing, calls, answers);
    let total = total_by(chart, grammar, weighing);
    let (cost, tree) = replay_costs(costs, grammar, calls, records);
    Replayed {
        total,
        cost,
        tree,
        trial,
    }
}
