// A grammar with every nonterminal a start, for ties among starts.
ghost use Rattle.sheets.specs.Starts.{every_start, every_start_shown};

use grammar::grammar::Grammar;
use grammar::rule::Rule;

#[derive(Drop)]
pub struct EveryStart<G> {
    pub below: G,
}

impl<G: Grammar> Grammar for EveryStart<G> {
    ghost meaning = { λ g. every_start (G.Grammar.meaning g.below) };

    ghost shown = { λ g. every_start_shown (G.Grammar.meaning g.below) (G.Grammar.shown g.below) };

    fn nonterminals(&self) -> u32 {
        self.below.nonterminals()
    }

    fn codes(&self) -> u32 {
        self.below.codes()
    }

    fn bound(&self) -> u32 {
        self.below.bound()
    }

    fn rule(&self, number: u32) -> Option<Rule> {
        self.below.rule(number)
    }

    fn is_start(&self, nonterminal: u32) -> bool {
        nonterminal < self.below.nonterminals()
    }
}
