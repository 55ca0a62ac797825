// Whether an entry may come.
ghost use Rattle.std.specs.Prelude.{◌≡◌};
ghost use Rattle.grammar.specs.Refusals.{accepted_unless};
ghost use Rattle.job.specs.Describing.{entry_refusal};

use entries::admission::{is_full, is_improper};
use grammar::refusal::Refusal;

// The slots of each chart.
pub(crate) const SLOTS: usize = 4096;

// The chart tests the same when the entry comes to it; here it is tested before there is a grammar. Whether an entry may come after `count` others, by a grammar of `nonterminals` and `codes`, or why it is refused.
pub(crate) fn check_entry(
    nonterminals: u32,
    codes: u32,
    count: usize,
    bits: u32,
) -> Result<(), Refusal>
    ensures { result ≡ accepted_unless (entry_refusal nonterminals codes count bits) }
{
    if is_improper(bits, codes) {
        return Err(Refusal::BadEntry);
    }
    if is_full(count, nonterminals, SLOTS) {
        return Err(Refusal::NoRoom);
    }
    Ok(())
}
