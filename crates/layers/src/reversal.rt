// The grammar below with left and right exchanged in every pair rule. A word's derivations match those below of the reversed word.
ghost use Rattle.std.specs.Prelude.{◌≡◌};
ghost use Rattle.layers.specs.Reversal.{reversal, turned as turned_rule};
ghost use Rattle.layers.specs.Matching.{OneForOne, PassesThrough};
ghost use Rattle.layers.specs.Promises.{ReversalMatches};
ghost use Rattle.layers.specs.Held.{reversal_meaning};
ghost use Rattle.layers.specs.Laws.Kept.{reversal_shown};

use grammar::grammar::Grammar;
use grammar::rule::{Expansion, Rule};

#[derive(Drop)]
pub struct Reversal<G> {
    below: G,
}

impl<G: Grammar> Reversal<G> {
    // Lays a reversal; it is always accepted.
    #[tactic(auto, using(crate::proofs::Mirrored::reversal_matches, crate::proofs::Mirrored::reversal_passes))]
    pub fn lay(below: G) -> Reversal<G>
        ensures means { reversal_meaning G.meaning result ≡ reversal (G.meaning below) }
        ensures matches { ReversalMatches OneForOne (G.meaning below) (reversal_meaning G.meaning result) }
        ensures passes { PassesThrough (reversal_meaning G.meaning result) (G.meaning below) (λ n. n) }
    {
        Reversal { below }
    }
}

// A rule with left and right exchanged.
fn turned(rule: Rule) -> Rule
    ensures { result ≡ turned_rule rule }
{
    let expansion = match rule.expansion {
        Expansion::Pair { left, right } => Expansion::Pair {
            left: right,
            right: left,
        },
        Expansion::Leaf { code } => Expansion::Leaf { code },
    };
    Rule { expansion, ..rule }
}

impl<G: Grammar> Grammar for Reversal<G> {
    ghost meaning = { reversal_meaning G.Grammar.meaning };

    ghost shown = { λ g. reversal_shown (G.Grammar.meaning g.below) (G.Grammar.shown g.below) };

    fn nonterminals(&self) -> u32 {
        self.below.nonterminals()
    }

    fn codes(&self) -> u32 {
        self.below.codes()
    }

    fn bound(&self) -> u32 {
        self.below.bound()
    }

    fn rule(&self, number: u32) -> Option<Rule> {
        let rule = self.below.rule(number)?;
        Some(turned(rule))
    }

    fn is_start(&self, nonterminal: u32) -> bool {
        self.below.is_start(nonterminal)
    }
}
