// The start of a tree, and whether there is one with room for its records.
ghost use Rattle.std.specs.Prelude.{length, ◌≡◌, ◌<◌, ◌≤◌};
ghost use Rattle.tree.specs.Steps.{Says, FirstOf, ChartStart};
ghost use Rattle.tree.specs.Trees.{nodes_answer};

use super::reading::Reading;
use grammar::grammar::Grammar;
use grammar::refusal::Refusal;
use semiring::cost::Cost;

// How many nodes the tree of `count` entries with this total has, if there is one and there are records for it.
pub(crate) fn node_count(total: Cost, count: usize, records: usize) -> Result<usize, Refusal>
    requires { count ≤ 64 }
    ensures { result ≡ nodes_answer total count records }
{
    if total.is_none() {
        return Err(Refusal::NoDerivation);
    }
    let nodes = (2 * count).saturating_sub(1);
    if nodes <= records {
        Ok(nodes)
    } else {
        Err(Refusal::FewRecords)
    }
}

impl<G: Grammar, W> Reading<'_, '_, G, W> {
    // Whether a nonterminal is a start whose cell of the first `end` entries has this cost.
    fn start_attains(&self, a: u32, end: usize, value: Cost) -> bool
        requires some { 0 < end }
        requires within { end ≤ (length self.now.chart.now.entries.list.items) }
        ensures { Says result (ChartStart (G.meaning self.now.grammar.now) self.now.chart.now end value a) }
    {
        self.grammar.is_start(a) && self.chart.cell(0, end, a) == Some(value)
    }

    // The lowest start whose cell of the first `end` entries has this cost.
    pub(crate) fn first_start(&self, end: usize, value: Cost) -> Option<u32>
        requires some { 0 < end }
        requires within { end ≤ (length self.now.chart.now.entries.list.items) }
        ensures { FirstOf (ChartStart (G.meaning self.now.grammar.now) self.now.chart.now end value) result }
    {
        (0..self.grammar.nonterminals()).find(|&a| self.start_attains(a, end, value))
    }
}
