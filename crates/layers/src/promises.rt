// The theorems of all layers together, on the contract of a call that answers a weight of which they speak.
ghost use Rattle.std.specs.Prelude.{◌≡◌};
ghost use Rattle.grammar.specs.Derivations.{leaf};
ghost use Rattle.grammar.specs.Totals.{weight_of, by};
ghost use Rattle.layers.specs.Promises.{OneForOneAll, SameWeightAll, PassesThroughAll};

use grammar::grammar::Grammar;
use grammar::weighing::Weighing;
use semiring::semiring::Semiring;

// What the tree of one leaf with this number weighs. Whatever layers a grammar has, its derivations match those that they let through at the bottom, at equal weight.
#[tactic(auto, using(crate::proofs::Stacked::one_for_one_all, crate::proofs::Stacked::passes_through_all))]
pub fn leaf_weight<S: Semiring, W: Weighing<Value = S>, G: Grammar>(
    grammar: &G,
    weighing: &W,
    number: u32,
) -> S
    ensures is { result ≡ weight_of S.ring (by (W.weight weighing.now)) (G.meaning grammar.now) (leaf number) }
    ensures matches { OneForOneAll }
    ensures passes { PassesThroughAll }
    ensures weighs { SameWeightAll S.ring }
{
    match grammar.rule(number) {
        Some(rule) => weighing.weigh(&rule),
        None => S::zero(),
    }
}
