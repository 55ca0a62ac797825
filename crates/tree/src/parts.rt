// The parts of a node, before a cut and from it on.
ghost use Rattle.std.specs.Prelude.{◌<◌};
ghost use Rattle.tree.specs.Steps.{IsNode, IsPair, IsParts, Cuts};

use super::node::{Choice, Node};
use grammar::rule::{Expansion, Rule};

impl Node {
    // The node of the part before a cut.
    pub(crate) fn front(self, cut: usize, nonterminal: u32) -> Node
        requires { self.begin < cut }
        ensures { IsNode result self.begin cut nonterminal }
    {
        Node {
            begin: self.begin,
            end: cut,
            nonterminal,
        }
    }

    // The node of the part from a cut on.
    pub(crate) fn back(self, cut: usize, nonterminal: u32) -> Node
        requires { cut < self.end }
        ensures { IsNode result cut self.end nonterminal }
    {
        Node {
            begin: cut,
            end: self.end,
            nonterminal,
        }
    }
}

impl Choice {
    // A choice that only names parts to go on with: the first entry and the rest, both from nonterminal 0.
    pub(crate) fn first_entry(node: Node) -> Choice
        ensures { Cuts 1 node.begin node.end result.cut result.rule.expansion }
    {
        let cut = node.begin + 1;
        let expansion = if cut < node.end {
            Expansion::Pair { left: 0, right: 0 }
        } else {
            Expansion::Leaf { code: 0 }
        };
        let rule = Rule {
            lhs: node.nonterminal,
            expansion,
            ..Rule::BLANK
        };
        Choice { rule, cut }
    }

    // The nodes of the two parts that the choice makes of a node; a leaf rule makes none.
    pub(crate) fn parts(self, node: Node) -> Option<(Node, Node)>
        requires { IsPair self.rule.expansion → (node.begin < self.cut) × (self.cut < node.end) }
        ensures { IsParts self.rule.expansion node.begin self.cut node.end result }
    {
        match self.rule.expansion {
            Expansion::Pair { left, right } => {
                Some((node.front(self.cut, left), node.back(self.cut, right)))
            }
            Expansion::Leaf { code: _ } => None,
        }
    }
}
