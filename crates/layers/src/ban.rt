// The grammar below without some of its rules. A word's derivations are those below without a banned number.
ghost use Rattle.std.specs.Prelude.{◌≡◌};
ghost use Rattle.layers.specs.Ban.{ban};
ghost use Rattle.layers.specs.Matching.{OneForOne, PassesThrough};
ghost use Rattle.layers.specs.Promises.{BanMatches};
ghost use Rattle.layers.specs.Held.{banned, ban_meaning};
ghost use Rattle.layers.specs.Laws.Kept.{ban_shown};

use crate::bans::Bans;
use grammar::grammar::Grammar;
use grammar::rule::Rule;

#[derive(Drop)]
pub struct Ban<G> {
    below: G,
    bans: Bans,
}

impl<G: Grammar> Ban<G> {
    // Lays a ban; it is always accepted.
    #[tactic(auto, using(crate::proofs::Banned::ban_matches, crate::proofs::Banned::ban_passes))]
    pub fn lay(below: G, bans: Bans) -> Ban<G>
        ensures means { ban_meaning G.meaning result ≡ ban (banned bans) (G.meaning below) }
        ensures matches { BanMatches OneForOne (banned bans) (G.meaning below) (ban_meaning G.meaning result) }
        ensures passes { PassesThrough (ban_meaning G.meaning result) (G.meaning below) (λ n. n) }
    {
        Ban { below, bans }
    }
}

impl<G: Grammar> Grammar for Ban<G> {
    ghost meaning = { ban_meaning G.Grammar.meaning };

    ghost shown = { λ g. ban_shown (banned g.bans) (G.Grammar.meaning g.below) (G.Grammar.shown g.below) };

    fn nonterminals(&self) -> u32 {
        self.below.nonterminals()
    }

    fn codes(&self) -> u32 {
        self.below.codes()
    }

    fn bound(&self) -> u32 {
        self.below.bound()
    }

    // in line, since a chart asks it in its innermost loops
    #[inline(always)]
    fn rule(&self, number: u32) -> Option<Rule> {
        if self.bans.has(number) {
            None
        } else {
            self.below.rule(number)
        }
    }

    fn is_start(&self, nonterminal: u32) -> bool {
        self.below.is_start(nonterminal)
    }
}
