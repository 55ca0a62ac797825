// What the tree reads of its chart: cells and entries in use.
ghost use Rattle.std.specs.Prelude.{length, ◌≡◌, ◌<◌, slice_index};
ghost use Rattle.tree.specs.Steps.{entries_of, cells_of, InUse};

use super::node::Node;
use super::reading::Reading;
use entries::entry::Entry;
use grammar::grammar::Grammar;
use semiring::cost::Cost;

impl<G: Grammar, W> Reading<'_, '_, G, W> {
    // The cost of a node's cell.
    pub(crate) fn cell(&self, node: Node) -> Cost
        requires { InUse self.now.chart.now node }
        ensures { result ≡ cells_of self.now.chart.now node.begin node.end node.nonterminal }
    {
        self.chart
            .cell(node.begin, node.end, node.nonterminal)
            .unwrap()
    }

    // The entry at a place in use.
    pub(crate) fn entry(&self, place: usize) -> Entry
        requires { place < (length self.now.chart.now.entries.list.items) }
        ensures { result.bits ≡ slice_index (entries_of self.now.chart.now) place }
    {
        self.chart.entry(place).unwrap()
    }
}
