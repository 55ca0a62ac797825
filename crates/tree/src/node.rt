// A node of a tree that is to be written, a rule that is tried there, and the choice that is made.
ghost use Rattle.std.specs.Prelude.{◌<◌};

use grammar::rule::Rule;
use semiring::cost::Cost;

// A span of entries, and the nonterminal that it is derived from.
#[derive(Clone, Copy)]
pub(crate) struct Node {
    pub(crate) begin: usize,
    pub(crate) end: usize,
    pub(crate) nonterminal: u32,
    ghost span: { begin < end },
}

// A rule that is tried at a node: its weight, and the cost of the node's cell, which it has to attain.
#[derive(Clone, Copy)]
pub(crate) struct Attempt {
    pub(crate) node: Node,
    pub(crate) weight: Cost,
    pub(crate) value: Cost,
}

// A rule that may stand at a node, and where it cuts the node's span (a leaf rule at its end).
#[derive(Clone, Copy)]
pub(crate) struct Choice {
    pub(crate) rule: Rule,
    pub(crate) cut: usize,
}
