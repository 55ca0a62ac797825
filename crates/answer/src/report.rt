// What the entries of a job come to: the totals over them and the nodes of a cheapest derivation.
ghost use Rattle.std.specs.Prelude.{◌≡◌, ◌≤◌, length};

use commands::fault::Fault;
use lists::list::List;
use semiring::cost::Cost;
use semiring::count::Count;
use semiring::yes_no::YesNo;
use std::marker::Model;
use tree::record::Record;

// Whether the entries have a derivation, how many, and the cost of a cheapest one.
#[derive(Clone, Copy, PartialEq, Eq, Debug)]
pub struct Totals {
    pub read: YesNo,
    pub count: Count,
    pub cost: Cost,
}

// What the entries come to: the totals, and the nodes of a cheapest derivation; none where there is no derivation.
#[derive(Clone, Copy)]
pub struct Report {
    pub totals: Totals,
    pub nodes: List<Record, 127>,
    ghost few: { length nodes.items ≤ 127 },
}

// A clause sees the fields as they are. Without a view of its own the check finds no proof where a struct that holds a list is passed by value and used again, though it is `Copy`.
impl Model for Report {
    ghost use Rattle.std.specs.Prelude.{refl};
    ghost use Rattle.answer.specs.Seen.{Report as Seen};

    ghost Value = { Seen };

    ghost view = { λ r. record { totals = r.totals; nodes = r.nodes; few = r.few } };

    ghost inverse = { λ v. record { totals = v.totals; nodes = v.nodes; few = v.few } };

    ghost inverse_ok = { λ r l. refl };
}

// The nodes of a derivation, root first and left before right: a type of its own, since only this crate knows how the records of another are written.
#[derive(Clone, Copy, PartialEq, Eq, Debug)]
pub struct Nodes<'a> {
    pub records: &'a [Record],
}

impl Report {
    // The nodes of a cheapest derivation; none where there is no derivation.
    pub fn tree(&self) -> Nodes<'_>
        ensures { result.records.now ≡ self.now.nodes.items }
    {
        Nodes {
            records: self.nodes.as_slice(),
        }
    }
}

// What is answered, lent to be printed: what the entries come to, or the first fault of the job.
#[derive(Clone, Copy)]
pub struct Answer<'a> {
    pub answer: &'a Result<Report, Fault>,
}
