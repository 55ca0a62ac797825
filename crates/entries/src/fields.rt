// The steps that calls are made of: one entry more, one fewer, another one at a place, and the mark.
ghost use Rattle.std.specs.Prelude.{◌≡◌, ◌-◌, ◌<◌, false, [], ◌∷◌, ◌++◌, length, take, slice_set};
ghost use Rattle.entries.specs.Model.{Fields};

use crate::entry::Entry;
use crate::list::Entries;

impl Entries {
    // One entry more at the end.
    pub(crate) fn push(&mut self, entry: Entry)
        requires { length self.old.list.items < 64 }
        ensures { Fields self.new (self.old.list.items ++ entry ∷ []) self.old.trial self.old.nonterminals }
    {
        let _ = self.list.push(entry);
    }

    // Without the last entry, if there is one.
    pub(crate) fn pop(&mut self)
        ensures { Fields self.new (take (length self.old.list.items - 1) self.old.list.items) self.old.trial self.old.nonterminals }
    {
        let _ = self.list.pop();
    }

    // Another entry at the place `k`, if there is one.
    pub(crate) fn put(&mut self, k: usize, entry: Entry)
        ensures { Fields self.new (slice_set self.old.list.items k entry) self.old.trial self.old.nonterminals }
    {
        let _ = self.list.replace(k, entry);
    }

    // With this mark.
    pub(crate) fn mark(&mut self, trial: bool)
        ensures fields { Fields self.new self.old.list.items trial self.old.nonterminals }
        ensures list { self.new.list ≡ self.old.list }
    {
        self.trial = trial;
    }

    // Without entries, and with a clear mark.
    pub(crate) fn empty(&mut self)
        ensures { Fields self.new [] false self.old.nonterminals }
    {
        self.list.clear();
        self.trial = false;
    }
}
