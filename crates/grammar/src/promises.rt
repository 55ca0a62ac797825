// The theorems of sums, each on the contract of a call that answers a number of which it speaks.
ghost use Rattle.std.specs.Prelude.{◌≡◌, ℕ, ◌-◌, ◌*◌};
ghost use Rattle.grammar.specs.Promises.{SumsAreTotals, TotalIsLeast, CostsAtMost};

use semiring::semiring::Semiring;

// What no derivation at all adds up to. The sum over rules and cuts is the total of all derivations, each once.
pub fn sum_of_none<S: Semiring>() -> S
    ensures zero { result ≡ S.ring.zero }
    ensures sums { SumsAreTotals S.ring }
{
    S::zero()
}

// 65,535 for each of the 2n - 1 nodes of a tree with n leaves.
fn cost_of_nodes(leaves: u32) -> u64
    ensures { result ≡ (2 * leaves - 1) * 65535 }
{
    (2 * u64::from(leaves)).saturating_sub(1) * 65535
}

// The most that a derivation of so many entries costs, by the cost weighing. A total of costs is the least cost.
#[tactic(auto, using(crate::proofs::Promised::total_is_least))]
pub fn highest_cost(entries: u32) -> u64
    ensures is { result ≡ (2 * entries - 1) * 65535 }
    ensures most { CostsAtMost entries result }
    ensures least { TotalIsLeast }
{
    cost_of_nodes(entries)
}
