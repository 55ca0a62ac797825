// The grammar below over recorder codes. A word's derivations match those below of the word as read.
ghost use Rattle.std.specs.Prelude.{◌≡◌, ◌/◌, Some, None};
ghost use Rattle.layers.specs.Renaming.{renaming, renaming_refused, renamed_any};
ghost use Rattle.layers.specs.Matching.{OneForOne, PassesThrough};
ghost use Rattle.layers.specs.Promises.{RenamingMatches};
ghost use Rattle.layers.specs.Held.{recorder, renaming_meaning};
ghost use Rattle.layers.specs.Laws.Renamed.{renaming_shown, recording};

use crate::readings::Readings;
use grammar::grammar::Grammar;
use grammar::refusal::Refusal;
use grammar::rule::{Expansion, Rule};

#[derive(Drop)]
pub struct Renaming<G> {
    below: G,
    readings: Readings,
}

impl<G: Grammar> Renaming<G> {
    // Lays a renaming; one that would be too large is blank: a refused layer is a grammar too, so this answers a layer beside a refusal.
    pub fn lay(below: G, readings: Readings) -> (Renaming<G>, Option<Refusal>)
        ensures refusal { result.1 ≡ renaming_refused (recorder readings) (G.meaning below) }
        ensures means { renaming_meaning G.meaning result.0 ≡ renaming (recorder readings) (G.meaning below) }
        ensures matches { result.1 ≡ None → RenamingMatches OneForOne (recorder readings) (G.meaning below) (renaming_meaning G.meaning result.0) }
        ensures passes { result.1 ≡ None → PassesThrough (renaming_meaning G.meaning result.0) (G.meaning below) (λ n. n / (recorder readings).count) }
    {
        let layer = Renaming { below, readings };
        let why = layer.refused();
        (layer, why)
    }

    // Why the layer is blank, or none. It is worked out at each question from what the layer holds, and not kept.
    fn refused(&self) -> Option<Refusal>
        ensures { result ≡ renaming_refused (recorder self.now.readings) (G.meaning self.now.below) }
    {
        if u64::from(self.below.bound()) * u64::from(self.readings.count()) <= 16777216 {
            None
        } else {
            Some(Refusal::TooLarge)
        }
    }
}

// A rule below with the recorder code `b`.
fn rename(readings: &Readings, b: u8, rule: Rule) -> Option<Rule>
    ensures { result ≡ renamed_any (recorder readings.now) b (Some rule) }
{
    match rule.expansion {
        Expansion::Pair { left: _, right: _ } => { if b == 0 { Some(rule) } else { None } }
        Expansion::Leaf { code } => {
            if readings.reading(b) == Some(code) {
                Some(Rule {
                    expansion: Expansion::Leaf { code: b },
                    ..rule
                })
            } else {
                None
            }
        }
    }
}

impl<G: Grammar> Grammar for Renaming<G> {
    ghost meaning = { renaming_meaning G.Grammar.meaning };

    ghost shown = { λ g. renaming_shown (recorder g.readings) (recording g.readings) (G.Grammar.meaning g.below) (G.Grammar.shown g.below) };

    fn nonterminals(&self) -> u32 {
        match self.refused() {
            Some(_) => 1,
            None => self.below.nonterminals(),
        }
    }

    fn codes(&self) -> u32 {
        match self.refused() {
            Some(_) => 1,
            None => self.readings.count(),
        }
    }

    #[inline(always)]
    fn bound(&self) -> u32 {
        match self.refused() {
            Some(_) => 0,
            None => self.below.bound() * self.readings.count(),
        }
    }

    // in line, since a chart asks it in its innermost loops
    #[inline(always)]
    fn rule(&self, number: u32) -> Option<Rule> {
        match self.refused() {
            Some(_) => None,
            None => {
                let count = self.readings.count();
                let rule = self.below.rule(number / count)?;
                rename(&self.readings, (number % count) as u8, rule)
            }
        }
    }

    fn is_start(&self, nonterminal: u32) -> bool {
        match self.refused() {
            Some(_) => false,
            None => self.below.is_start(nonterminal),
        }
    }
}
