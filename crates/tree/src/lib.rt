// The tree of a cost chart: the records of a cheapest derivation of its entries.
#![tactic(auto)]

ghost use Rattle.std.specs.Prelude.{◌≡◌, length, take, drop, IfOk, MatchResult};
ghost use Rattle.semiring.specs.Costs.{cost};
ghost use Rattle.chart.specs.Stands.{ChartStands};
ghost use Rattle.tree.specs.Trees.{chart_answer, ChartCheapest, TellsNone, ChartEvery};

use chart::chart::Chart;
use grammar::grammar::Grammar;
use grammar::refusal::Refusal;
use grammar::weighing::Weighing;
use node::Node;
use reading::Reading;
use record::Record;
use semiring::cost::Cost;
use starts::node_count;

mod node;
mod parts;
mod reading;
mod reads;
pub mod record;
mod rivals;
mod starts;
mod writes;

// Writes the records of a cheapest derivation of the chart's entries, in preorder, left first, and answers how many.
// The start is the lowest-numbered of least cost; each node takes the lowest rule number that attains its cell's cost, then the smallest cut.
pub fn tree<G: Grammar, W: Weighing<Value = Cost>>(
    chart: &Chart<'_, Cost>,
    grammar: &G,
    weighing: &W,
    records: &mut [Record],
) -> Result<usize, Refusal>
    ensures answer { result ≡ chart_answer (G.meaning grammar.now) chart.now.entries chart.now.slots.cells.now (length records.old) }
    ensures beyond { MatchResult result (λ k. drop k records.new ≡ drop k records.old) (λ _. records.new ≡ records.old) }
    ensures cheapest { ChartStands cost (W.weight weighing.now) (G.meaning grammar.now) chart.now.entries chart.now.slots.cells.now → IfOk result (λ k. ChartCheapest (W.weight weighing.now) (G.meaning grammar.now) chart.now.entries chart.now.slots.cells.now (take k records.new)) }
    ensures none { TellsNone (W.weight weighing.now) (G.meaning grammar.now) chart.now.entries chart.now.slots.cells.now result }
    ensures every { ChartStands cost (W.weight weighing.now) (G.meaning grammar.now) chart.now.entries chart.now.slots.cells.now → ChartEvery (W.weight weighing.now) (G.meaning grammar.now) chart.now.entries chart.now.slots.cells.now }
{
    let total = chart.total(grammar)?;
    let count = chart.len();
    let nodes = node_count(total, count, records.len())?;
    let reading = Reading {
        chart,
        grammar,
        weighing,
    };
    let root = Node {
        begin: 0,
        end: count,
        nonterminal: reading.first_start(count, total).unwrap(),
    };
    reading.write_tree(root, records, 0);
    Ok(nodes)
}
