// The three semirings: yes/no, count and cost. Counts and costs are two types and not one of two widths: the cap of a count is its largest value, that of a cost is its zero.
ghost use Rattle.std.specs.Prelude.{◌≡◌, ◌+◌, ◌-◌, ◌*◌, ◌^◌, min, ◌==◌};
ghost use Rattle.semiring.specs.YesNos.{yes_no};
ghost use Rattle.semiring.specs.Counts.{count};
ghost use Rattle.semiring.specs.Costs.{cost, none};
ghost use Rattle.semiring.specs.declared.cost.Cost.{Cost};
ghost use Rattle.semiring.specs.declared.count.Count.{Count};
ghost use Rattle.semiring.specs.YesNoLaws.{yes_no_laws, yes_no_commutes};
ghost use Rattle.semiring.specs.CountLaws.{count_laws, count_commutes};
ghost use Rattle.semiring.specs.CostLaws.{cost_laws, cost_commutes};

use super::cost::Cost;
use super::count::Count;
use super::semiring::Semiring;
use super::yes_no::YesNo;

impl Count {
    // The count with this value.
    #[tactic(auto, using(crate::specs::CountLaws::same))]
    pub fn new(value: u64) -> Count
        ensures { (c : Count) → c.value ≡ value → result ≡ c }
    {
        Count { value }
    }
}

impl Cost {
    // Whether there is no derivation.
    pub fn is_none(self) -> bool
        ensures { result ≡ (self.value == none) }
    {
        self.value == u32::MAX
    }

    // The cost with this value; 2^32 - 1 is "none".
    #[tactic(auto, using(crate::specs::CostLaws::same))]
    pub fn new(value: u32) -> Cost
        ensures { (c : Cost) → c.value ≡ value → result ≡ c }
    {
        Cost { value }
    }
}

impl Semiring for YesNo {
    ghost ring = { yes_no };

    ghost laws = { yes_no_laws };

    ghost commutes = { yes_no_commutes };

    fn zero() -> YesNo {
        YesNo { value: false }
    }

    fn one() -> YesNo {
        YesNo { value: true }
    }

    fn add(self, other: YesNo) -> YesNo {
        YesNo {
            value: self.value | other.value,
        }
    }

    fn mul(self, other: YesNo) -> YesNo {
        YesNo {
            value: self.value & other.value,
        }
    }
}

// A wide number, or 2^64 - 1 where that is smaller. One wide product is faster than `saturating_mul`; it is widened by `as`, since of a product of `u128::from` the check finds no proof.
fn capped(wide: u128) -> u64
    ensures { result ≡ min wide (2 ^ 64 - 1) }
{
    u64::try_from(wide).unwrap_or(u64::MAX)
}

impl Semiring for Count {
    ghost ring = { count };

    ghost laws = { count_laws };

    ghost commutes = { count_commutes };

    fn zero() -> Count {
        Count::new(0)
    }

    fn one() -> Count {
        Count::new(1)
    }

    fn add(self, other: Count) -> Count {
        Count::new(self.value.saturating_add(other.value))
    }

    fn mul(self, other: Count) -> Count {
        Count::new(capped(self.value as u128 * other.value as u128))
    }

    fn add_product(self, left: Count, right: Count) -> Count {
        Count::new(capped(self.value as u128 + left.value as u128 * right.value as u128))
    }
}

impl Semiring for Cost {
    ghost ring = { cost };

    ghost laws = { cost_laws };

    ghost commutes = { cost_commutes };

    fn zero() -> Cost {
        Cost::new(u32::MAX)
    }

    fn one() -> Cost {
        Cost::new(0)
    }

    fn add(self, other: Cost) -> Cost {
        Cost::new(self.value.min(other.value))
    }

    fn mul(self, other: Cost) -> Cost {
        Cost::new(self.value.saturating_add(other.value))
    }
}
