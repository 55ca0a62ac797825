// The list of entries, the mark of an open trial, and the number of nonterminals of the grammar that the list is kept for.
ghost use Rattle.std.specs.Prelude.{◌≤◌, length};

use crate::entry::Entry;
use lists::list::List;
use std::marker::Model;

#[derive(Clone, Copy)]
pub struct Entries {
    pub(crate) list: List<Entry, 64>,
    pub(crate) trial: bool,
    pub(crate) nonterminals: u32,
    ghost few: { length list.items ≤ 64 },
}

// A clause sees the fields as they are. Without a view of its own the check finds no proof where a struct that holds a list is passed by value and used again, though it is `Copy`.
impl Model for Entries {
    ghost use Rattle.std.specs.Prelude.{refl};
    ghost use Rattle.entries.specs.Lists.{Entries as Seen};

    ghost Value = { Seen };

    ghost view = { λ e. record { list = e.list; trial = e.trial; nonterminals = e.nonterminals; few = e.few } };

    ghost inverse = { λ v. record { list = v.list; trial = v.trial; nonterminals = v.nonterminals; few = v.few } };

    ghost inverse_ok = { λ e l. refl };
}
