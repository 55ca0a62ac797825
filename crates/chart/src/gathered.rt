// The rules of a grammar, asked for once and then at hand for each span.
ghost use Rattle.std.specs.Prelude.{◌≡◌, ◌+◌, ◌-◌, ◌^◌, ◌<◌, [], MatchResult};
ghost use Rattle.chart.specs.Gathers.{pushed, Gathers};

use grammar::grammar::Grammar;
use grammar::rule::Rule;
use lists::list::{Full, List};

// The rules of the numbers below `next`, in order, where they lie.
#[derive(Clone, Copy)]
pub(crate) struct AtHand<'a> {
    pub(crate) rules: &'a [Rule],
    pub(crate) next: u32,
}

impl AtHand<'_> {
    // No rules.
    pub(crate) fn none() -> AtHand<'static>
        ensures { (result.rules.now ≡ []) × (result.next ≡ 0) }
    {
        AtHand {
            rules: &[],
            next: 0,
        }
    }
}

// The rules of the numbers below `next`, in order. `next` is kept and moved on, since a rule for which there is no room ends the gathering before it.
#[derive(Drop)]
pub(crate) struct Gathered<const N: usize> {
    pub(crate) rules: List<Rule, N>,
    pub(crate) next: u32,
}

impl<const N: usize> Gathered<N> {
    // Takes in the rule that there may be at the number `next`; where there is no room for it, all stays.
    fn take_next<G: Grammar>(&mut self, grammar: &G) -> Result<(), Full>
        requires { self.old.next < 2 ^ 32 - 1 }
        ensures { MatchResult result (λ _. (self.new.rules.items ≡ pushed self.old.rules.items ((G.meaning grammar.now).rule self.old.next)) × (self.new.next ≡ self.old.next + 1)) (λ _. self.new ≡ self.old) }
    {
        if let Some(rule) = grammar.rule(self.next) {
            self.rules.push(rule)?;
        }
        self.next += 1;
        Ok(())
    }

    // The rules of the first numbers: of as many as there is room for.
    pub(crate) fn of<G: Grammar>(grammar: &G) -> Gathered<N>
        ensures { Gathers (G.meaning grammar.now) result.rules.items result.next }
    {
        let mut gathered = Gathered {
            rules: List::new(Rule::BLANK),
            next: 0,
        };
        for _ in 0..grammar.bound() {
            if gathered.take_next(grammar).is_err() {
                break;
            }
        }
        gathered
    }

    // The rules, where they lie.
    pub(crate) fn lend(&self) -> AtHand<'_>
        ensures { (result.rules.now ≡ self.now.rules.items) × (result.next ≡ self.now.next) }
    {
        AtHand {
            rules: self.rules.as_slice(),
            next: self.next,
        }
    }
}
