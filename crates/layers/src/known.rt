// The known sheets: what a small grammar and three layers over it add up to.
ghost use Rattle.std.specs.Prelude.{◌≡◌};
ghost use Rattle.layers.specs.Known.{KnownSheets, known_answers};

// How many derivations each known sheet has, and the least of their costs.
#[tactic(auto, using(crate::proofs::Totals::known_sheets))]
pub fn known_answers() -> [(u64, u32); 8]
    ensures is { result ≡ known_answers }
    ensures sheets { KnownSheets }
{
    let none = u32::MAX;
    [
        (0, none),
        (1, 2),
        (2, 8),
        (5, 15),
        (4, 5),
        (3, 6),
        (0, none),
        (2, 2),
    ]
}
