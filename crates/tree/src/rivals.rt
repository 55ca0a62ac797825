// The choices that attain a cell's cost, and the first of them.
ghost use Rattle.std.specs.Prelude.{◌<◌};
ghost use Rattle.grammar.specs.declared.rule.Expansion.{Expansion};
ghost use Rattle.chart.specs.Cells.{Names};
ghost use Rattle.tree.specs.Steps.{InUse, Says, FirstOf, ChartAttains, ChartRival, PickedAt, PickedOf};

use super::node::{Attempt, Choice, Node};
use super::reading::Reading;
use grammar::grammar::Grammar;
use grammar::rule::Expansion;
use grammar::weighing::Weighing;
use semiring::cost::Cost;
use semiring::semiring::Semiring;

impl<G: Grammar, W: Weighing<Value = Cost>> Reading<'_, '_, G, W> {
    // Whether a pair rule, cut at `cut`, attains the cost.
    fn pair_attains(&self, tried: Attempt, left: u32, right: u32, cut: usize) -> bool
        requires inside { (tried.node.begin < cut) × (cut < tried.node.end) }
        requires used { InUse self.now.chart.now tried.node }
        requires names { Names self.now.chart.now.entries.nonterminals (Expansion.Pair left right) }
        ensures { Says result (ChartAttains self.now.chart.now tried (Expansion.Pair left right) cut) }
    {
        let l = self.cell(tried.node.front(cut, left));
        let r = self.cell(tried.node.back(cut, right));
        tried.weight.mul(l.mul(r)) == tried.value
    }

    // The smallest cut at which a pair rule attains the cost.
    fn first_pair_cut(&self, tried: Attempt, left: u32, right: u32) -> Option<usize>
        requires used { InUse self.now.chart.now tried.node }
        requires names { Names self.now.chart.now.entries.nonterminals (Expansion.Pair left right) }
        ensures { FirstOf (ChartAttains self.now.chart.now tried (Expansion.Pair left right)) result }
    {
        (tried.node.begin + 1..tried.node.end).find(|&cut| self.pair_attains(
            tried, left, right, cut,
        ))
    }

    // The cut of a leaf rule, the span's end, where it attains the cost.
    fn leaf_cut(&self, tried: Attempt, code: u8) -> Option<usize>
        requires { InUse self.now.chart.now tried.node }
        ensures { FirstOf (ChartAttains self.now.chart.now tried (Expansion.Leaf code)) result }
    {
        let node = tried.node;
        let attains = node.begin + 1 == node.end
            && tried.weight == tried.value
            && self.entry(node.begin).has(code);
        attains.then_some(node.end)
    }

    // The smallest cut at which a rule attains the cost.
    fn first_cut(&self, tried: Attempt, expansion: Expansion) -> Option<usize>
        requires used { InUse self.now.chart.now tried.node }
        requires names { Names self.now.chart.now.entries.nonterminals expansion }
        ensures { FirstOf (ChartAttains self.now.chart.now tried expansion) result }
    {
        match expansion {
            Expansion::Leaf { code } => self.leaf_cut(tried, code),
            Expansion::Pair { left, right } => self.first_pair_cut(tried, left, right),
        }
    }

    // The rival of the rule at this number with the smallest cut, if there is one.
    fn rival_of(&self, node: Node, number: u32) -> Option<Choice>
        requires { InUse self.now.chart.now node }
        ensures { PickedAt (ChartRival (W.weight self.now.weighing.now) (G.meaning self.now.grammar.now) self.now.chart.now node) (G.meaning self.now.grammar.now) number result }
    {
        let rule = self.grammar.rule(number)?;
        if rule.lhs != node.nonterminal {
            return None;
        }
        let tried = Attempt {
            node,
            weight: self.weighing.weigh(&rule),
            value: self.cell(node),
        };
        let cut = self.first_cut(tried, rule.expansion)?;
        Some(Choice { rule, cut })
    }

    // The first rival at a node, if there is one: by rule number, then by cut.
    pub(crate) fn first_rival(&self, node: Node) -> Option<Choice>
        requires { InUse self.now.chart.now node }
        ensures { PickedOf (ChartRival (W.weight self.now.weighing.now) (G.meaning self.now.grammar.now) self.now.chart.now node) (G.meaning self.now.grammar.now) result }
    {
        (0..self.grammar.bound()).find_map(|number| self.rival_of(node, number))
    }
}
