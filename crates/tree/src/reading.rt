// What a tree is read from: a cost chart, a grammar of as many nonterminals, and a weighing in costs.
ghost use Rattle.std.specs.Prelude.{◌≡◌};

use chart::chart::Chart;
use grammar::grammar::Grammar;
use semiring::cost::Cost;

#[derive(Drop)]
pub(crate) struct Reading<'c, 's, G: Grammar, W> {
    pub(crate) chart: &'c Chart<'s, Cost>,
    pub(crate) grammar: &'c G,
    pub(crate) weighing: &'c W,
    ghost same: { (G.meaning grammar.now).nonterminals ≡ chart.now.entries.nonterminals },
}
