// The chart: the caller's slots, and the entries that they are filled for.
ghost use Rattle.std.specs.Prelude.{◌+◌, ◌*◌, ◌≤◌, length};
ghost use Rattle.entries.specs.Spans.{triangle};

use super::slots::Slots;
use entries::list::Entries;
use semiring::semiring::Semiring;

#[derive(Drop)]
pub struct Chart<'a, S: Semiring> {
    pub(crate) slots: Slots<'a, S>,
    pub(crate) entries: Entries,
    ghost room: { triangle ((length entries.list.items) + 1) * entries.nonterminals ≤ length slots.cells.now },
    ghost narrow: { entries.nonterminals ≤ 4096 },
}
