// Making a list of entries, and what it answers.
ghost use Rattle.std.specs.Prelude.{◌≡◌, ℕ, ◌<◌, ◌≤◌, map, length, MatchOption, slice_index, slice_index_or};
ghost use Rattle.entries.specs.Model.{state, bits_of, empty};
ghost use Rattle.entries.specs.declared.entry.Entry.{Entry};

use crate::entry::Entry;
use crate::list::Entries;
use lists::list::List;

impl Entries {
    // No entries and no open trial, for grammars with so many nonterminals.
    pub fn new(nonterminals: u32) -> Entries
        ensures empty { state result ≡ empty }
        ensures own { result.nonterminals ≡ nonterminals }
    {
        Entries {
            list: List::new(Entry::first_code()),
            trial: false,
            nonterminals,
        }
    }

    // How many nonterminals the grammars have that the list is kept for.
    pub fn nonterminals(&self) -> u32
        ensures { result ≡ self.now.nonterminals }
    {
        self.nonterminals
    }

    // How many entries there are.
    pub fn len(&self) -> usize
        ensures is { result ≡ length (state self.now).entries }
        ensures count { result ≡ length self.now.list.items }
    {
        self.all().len()
    }

    // The entry at a place, if there is one.
    pub fn entry(&self, place: usize) -> Option<Entry>
        ensures { MatchOption result (length (state self.now).entries ≤ place) (λ e. (place < length (state self.now).entries) × (e.bits ≡ slice_index (state self.now).entries place)) }
    {
        self.all().get(place).copied()
    }

    // All entries.
    pub fn all(&self) -> &[Entry]
        ensures is { map bits_of result.now ≡ (state self.now).entries }
        ensures long { length result.now ≡ length (state self.now).entries }
        ensures items { result.now ≡ self.now.list.items }
        ensures each { (k : ℕ) (e : Entry) → k < length result.now → (slice_index_or result.now k e).bits ≡ slice_index (state self.now).entries k }
    {
        self.list.as_slice()
    }

    // Whether a trial is open.
    pub fn trial_open(&self) -> bool
        ensures { result ≡ (state self.now).trial }
    {
        self.trial
    }
}
