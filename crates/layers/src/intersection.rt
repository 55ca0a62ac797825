// The grammar below crossed with an automaton. The derivations from (p, A, r) match those below from A of the words that lead from p to r.
ghost use Rattle.std.specs.Prelude.{◌≡◌, ◌/◌, ◌<◌, ◌≤◌, Some, None};
ghost use Rattle.layers.specs.Intersection.{intersection, intersection_refused, crossed as crossed_number, crossed_any, cube, Small};
ghost use Rattle.layers.specs.Matching.{OneForOne, PassesThrough};
ghost use Rattle.layers.specs.Promises.{IntersectionMatches};
ghost use Rattle.layers.specs.Held.{intersection_meaning};
ghost use Rattle.layers.specs.Laws.Crossed.{intersection_shown};

use automata::automaton::Automaton;
use grammar::grammar::Grammar;
use grammar::refusal::Refusal;
use grammar::rule::{Expansion, Rule};

#[derive(Drop)]
pub struct Intersection<G, M> {
    below: G,
    automaton: M,
}

impl<G: Grammar, M: Automaton> Intersection<G, M> {
    // Lays an intersection; one that would be too large, or whose automaton has too few codes, is blank: a refused layer is a grammar too, so this answers a layer beside a refusal.
    pub fn lay(below: G, automaton: M) -> (Intersection<G, M>, Option<Refusal>)
        ensures refusal { result.1 ≡ intersection_refused (M.machine automaton) (G.meaning below) }
        ensures means { intersection_meaning G.meaning M.machine result.0 ≡ intersection (M.machine automaton) (G.meaning below) }
        ensures matches { result.1 ≡ None → IntersectionMatches OneForOne (M.machine automaton) (G.meaning below) (intersection_meaning G.meaning M.machine result.0) }
        ensures passes { result.1 ≡ None → PassesThrough (intersection_meaning G.meaning M.machine result.0) (G.meaning below) (λ n. n / cube (M.machine automaton).states) }
    {
        let layer = Intersection { below, automaton };
        let why = layer.refused();
        (layer, why)
    }

    // Why the layer is blank, or none. It is worked out at each question from what the layer holds, and not kept.
    fn refused(&self) -> Option<Refusal>
        ensures { result ≡ intersection_refused (M.machine self.now.automaton) (G.meaning self.now.below) }
    {
        if self.automaton.codes() < self.below.codes() {
            return Some(Refusal::FewerCodes);
        }
        let q = u64::from(self.automaton.states());
        let nonterminals = u64::from(self.below.nonterminals()) * q * q;
        let bound = u64::from(self.below.bound()) * q * q * q;
        if nonterminals <= 4096 && bound <= 16777216 {
            None
        } else {
            Some(Refusal::TooLarge)
        }
    }
}

// The number of the nonterminal (p, a, r), with `states` states.
fn crossed(states: u32, a: u32, p: u32, r: u32) -> u32
    requires { (states ≤ 8) × ((a < 4096) × ((p < 8) × (r < 8))) }
    ensures { result ≡ crossed_number states a p r }
{
    (a * states + p) * states + r
}

// A rule below with the states p, q and r.
fn cross<M: Automaton>(automaton: &M, p: u32, q: u32, r: u32, rule: Rule) -> Option<Rule>
    requires few { (M.machine automaton.now).states ≤ 8 }
    requires states { (p < 8) × ((q < 8) × (r < 8)) }
    requires small { (rule.lhs < 4096) × (Small rule.expansion) }
    ensures { result ≡ crossed_any (M.machine automaton.now) p q r (Some rule) }
{
    let states = automaton.states();
    let lhs = crossed(states, rule.lhs, p, r);
    match rule.expansion {
        Expansion::Pair { left, right } => {
            let expansion = Expansion::Pair {
                left: crossed(states, left, p, q),
                right: crossed(states, right, q, r),
            };
            Some(Rule {
                lhs,
                expansion,
                ..rule
            })
        }
        Expansion::Leaf { code } => {
            if q == 0 && automaton.step(p, code) == Some(r) {
                Some(Rule { lhs, ..rule })
            } else {
                None
            }
        }
    }
}

impl<G: Grammar, M: Automaton> Grammar for Intersection<G, M> {
    ghost meaning = { intersection_meaning G.Grammar.meaning M.Automaton.machine };

    ghost shown = { λ g. intersection_shown (M.Automaton.machine g.automaton) (M.Automaton.working g.automaton) (G.Grammar.meaning g.below) (G.Grammar.shown g.below) };

    fn nonterminals(&self) -> u32 {
        match self.refused() {
            Some(_) => 1,
            None => {
                let q = self.automaton.states();
                self.below.nonterminals() * q * q
            }
        }
    }

    fn codes(&self) -> u32 {
        match self.refused() {
            Some(_) => 1,
            None => self.below.codes(),
        }
    }

    #[inline(always)]
    fn bound(&self) -> u32 {
        match self.refused() {
            Some(_) => 0,
            None => {
                let q = u64::from(self.automaton.states());
                (u64::from(self.below.bound()) * q * q * q) as u32
            }
        }
    }

    // in line, since a chart asks it in its innermost loops
    #[inline(always)]
    fn rule(&self, number: u32) -> Option<Rule> {
        match self.refused() {
            Some(_) => None,
            None => {
                let q = self.automaton.states();
                let (p, s, r) = (number / q / q % q, number / q % q, number % q);
                let rule = self.below.rule(number / q / q / q)?;
                cross(&self.automaton, p, s, r, rule)
            }
        }
    }

    fn is_start(&self, nonterminal: u32) -> bool {
        match self.refused() {
            Some(_) => false,
            None => {
                let q = self.automaton.states();
                let (p, r) = (nonterminal / q % q, nonterminal % q);
                self.below.is_start(nonterminal / q / q)
                    && p == self.automaton.start()
                    && self.automaton.accepts(r)
            }
        }
    }
}
