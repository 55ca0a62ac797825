// What a chart answers of its entries and its mark, which the list of entries keeps.
ghost use Rattle.std.specs.Prelude.{◌≡◌, ◌<◌, ◌≤◌, length, slice_index, MatchOption};
ghost use Rattle.entries.specs.Model.{state};

use super::chart::Chart;
use entries::entry::Entry;
use semiring::semiring::Semiring;

impl<'a, S: Semiring> Chart<'a, S> {
    // How many nonterminals the chart was made for.
    pub fn nonterminals(&self) -> u32
        ensures { result ≡ self.now.entries.nonterminals }
    {
        self.entries.nonterminals()
    }

    // How many entries there are.
    pub fn len(&self) -> usize
        ensures is { result ≡ length (state self.now.entries).entries }
        ensures count { result ≡ length self.now.entries.list.items }
    {
        self.entries.len()
    }

    // The entry at a place, if there is one.
    pub fn entry(&self, place: usize) -> Option<Entry>
        ensures { MatchOption result (length (state self.now.entries).entries ≤ place) (λ e. (place < length (state self.now.entries).entries) × (e.bits ≡ slice_index (state self.now.entries).entries place)) }
    {
        self.entries.entry(place)
    }

    // Whether a trial is open.
    pub fn trial_open(&self) -> bool
        ensures { result ≡ (state self.now.entries).trial }
    {
        self.entries.trial_open()
    }
}
