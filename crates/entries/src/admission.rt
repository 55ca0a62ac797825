// What is tested of an entry that is to come: whether its bits are a set of the grammar's codes, and whether there is room for it.
ghost use Rattle.std.specs.Prelude.{◌≡◌, ◌<◌, ◌≤◌, [], ◌∷◌};
ghost use Rattle.entries.specs.Model.{test, verdict, improper, Admits};
ghost use Rattle.entries.specs.Spans.{triangle, full};

use crate::entry::Entry;
use grammar::refusal::Refusal;

// Whether the bits are no entry, or have a code from `codes` on.
pub fn is_improper(bits: u32, codes: u32) -> bool
    ensures { result ≡ improper bits codes }
{
    bits == 0 || (codes < 32 && bits >= 1 << codes)
}

// The bits as an entry of codes below `codes`.
pub(crate) fn proper_entry(bits: u32, codes: u32) -> Result<Entry, Refusal>
    ensures { Admits (verdict (test (improper bits codes) Refusal.BadEntry ∷ [])) bits result }
{
    if is_improper(bits, codes) {
        return Err(Refusal::BadEntry);
    }
    Entry::new(bits).ok_or(Refusal::BadEntry)
}

// How many spans end before `end`. The place of a cell has the same half line: a function of both crates for it would be no plainer.
#[tactic(auto, unfolding(crate::specs::Spans::triangle))]
fn spans_before(end: usize) -> usize
    requires { (0 < end) × (end ≤ 66) }
    ensures is { result ≡ triangle end }
    ensures small { result ≤ 4096 }
{
    end * (end - 1) / 2
}

// Whether there is no place for an entry after the first `count`: there are 64, or the spans of one more need more cells than there are slots.
pub fn is_full(count: usize, nonterminals: u32, slots: usize) -> bool
    ensures { result ≡ full count nonterminals slots }
{
    count >= 64 || spans_before(count + 2) * nonterminals as usize > slots
}
