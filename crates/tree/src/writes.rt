// Writing the records of a tree, each node with the rule that is chosen there.
ghost use Rattle.std.specs.Prelude.{◌≡◌, ◌+◌, ◌-◌, ◌*◌, ◌<◌, ◌≤◌, length, slice_set};
ghost use Rattle.tree.specs.Trees.{record_of};
ghost use Rattle.tree.specs.Steps.{InUse, ChartRival, Chose, ChartWrote};

use super::node::{Choice, Node};
use super::reading::Reading;
use super::record::Record;
use grammar::grammar::Grammar;
use grammar::weighing::Weighing;
use semiring::cost::Cost;

impl Node {
    // Writes the node's record, with the bottom number of its rule, at a place.
    fn write(self, bottom: u32, records: &mut [Record], at: usize)
        requires { at < length records.old }
        ensures { records.new ≡ slice_set records.old at (record_of self.begin self.end bottom) }
    {
        records[at] = Record {
            begin: self.begin,
            end: self.end,
            bottom,
        };
    }
}

impl<G: Grammar, W: Weighing<Value = Cost>> Reading<'_, '_, G, W> {
    // The first rival at a node; where there is none, a choice that only names parts to go on with.
    fn choose(&self, node: Node) -> Choice
        requires { InUse self.now.chart.now node }
        ensures { Chose (ChartRival (W.weight self.now.weighing.now) (G.meaning self.now.grammar.now) self.now.chart.now node) (G.meaning self.now.grammar.now) node.begin node.end result }
    {
        self.first_rival(node).unwrap_or(Choice::first_entry(node))
    }

    // Writes the records of the tree below a node from `at` on.
    pub(crate) fn write_tree(&self, node: Node, records: &mut [Record], at: usize)
        requires used { InUse self.now.chart.now node }
        requires fits { at + (2 * (node.end - node.begin) - 1) ≤ length records.old }
        ensures { ChartWrote (W.weight self.now.weighing.now) (G.meaning self.now.grammar.now) self.now.chart.now records.old at node records.new }
    {
        let choice = self.choose(node);
        node.write(choice.rule.bottom, records, at);
        if let Some((front, back)) = choice.parts(node) {
            self.write_tree(front, records, at + 1);
            self.write_tree(back, records, at + 2 * (choice.cut - node.begin));
        }
    }
}
