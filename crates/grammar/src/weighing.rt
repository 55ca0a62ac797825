// A weighing gives each rule a weight in a semiring, by the rule's cost and bottom number alone.
ghost use Rattle.std.specs.Prelude.{◌≡◌, ℕ};
ghost use Rattle.semiring.specs.Costs.{costing};

use super::rule::Rule;
use semiring::cost::Cost;
use semiring::semiring::Semiring;
use std::marker::PhantomData;

pub trait Weighing {
    type Value: Semiring;

    ghost weight: { Self → ℕ → ℕ → Self.Value };

    fn weigh(&self, rule: &Rule) -> Self::Value
        ensures { result ≡ weight self.now rule.now.cost rule.now.bottom };
}

// Each rule weighs its cost.
#[derive(Clone, Copy)]
pub struct CostWeighing {}

impl Weighing for CostWeighing {
    type Value = Cost;

    ghost weight = { λ _ cost _. costing cost };

    fn weigh(&self, rule: &Rule) -> Cost {
        Cost::new(u32::from(rule.cost))
    }
}

// Each rule weighs one, so that a total says how many derivations there are, or whether there is one.
#[derive(Clone, Copy)]
pub struct UnitWeighing<S> {
    of: PhantomData<S>,
}

impl<S: Semiring> UnitWeighing<S> {
    // The unit weighing of a semiring: there is one.
    pub fn new() -> UnitWeighing<S>
        ensures { (w : UnitWeighing S) → result ≡ w }
    {
        UnitWeighing { of: PhantomData }
    }
}

impl<S: Semiring> Weighing for UnitWeighing<S> {
    type Value = S;

    ghost weight = { λ _ _ _. S.ring.one };

    fn weigh(&self, _rule: &Rule) -> S {
        S::one()
    }
}
