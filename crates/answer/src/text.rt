// The text of an answer, line by line; each line ends in a line feed.
ghost use Rattle.std.specs.Prelude.{◌≡◌, Some, IfOk, string_bytes};
ghost use Rattle.answer.specs.Lines.{totals_lines, node_lines, report_lines, answer_text};

use crate::report::{Answer, Nodes, Report, Totals};
use commands::fault::Fault;
use std::alloc::{AllocError, Global};
use std::fmt;
use tree::record::Record;

// Three lines: whether there is a derivation, how many, and the cost of a cheapest.
impl fmt::Display for Totals {
    ghost output = { λ t. Some (totals_lines t) };

    fn fmt<W: fmt::Write>(&self, f: &mut fmt::Formatter<W>) -> fmt::Result {
        let read = if self.read.value { "yes" } else { "no" };
        let count = self.count.value;
        let cost = self.cost.value;
        if self.cost.is_none() {
            write!(f, "read {read}\ncount {count}\ncost none\n")
        } else {
            write!(f, "read {read}\ncount {count}\ncost {cost}\n")
        }
    }
}

// A line for each node: the span that it covers, and the number of its rule in the table.
impl fmt::Display for Nodes<'_> {
    ghost output = { λ n. Some (node_lines n.records.now) };

    #[tactic(auto, using(crate::proofs::Nodes::lines_more, std::proofs::lemmas::Grind::put_two))]
    fn fmt<W: fmt::Write>(&self, f: &mut fmt::Formatter<W>) -> fmt::Result {
        for Record { begin, end, bottom } in self.records {
            write!(f, "node {begin} {end} {bottom}\n")?;
        }
        Ok(())
    }
}

// The lines of the totals, and then those of the nodes.
impl fmt::Display for Report {
    ghost output = { λ r. Some (report_lines r) };

    fn fmt<W: fmt::Write>(&self, f: &mut fmt::Formatter<W>) -> fmt::Result {
        let totals = self.totals;
        let nodes = self.tree();
        write!(f, "{totals}{nodes}")
    }
}

// The line of a fault, or the lines of a report.
impl fmt::Display for Answer<'_> {
    ghost output = { λ a. Some (answer_text a.answer.now) };

    fn fmt<W: fmt::Write>(&self, f: &mut fmt::Formatter<W>) -> fmt::Result {
        match self.answer {
            Ok(report) => write!(f, "{report}"),
            Err(fault) => write!(f, "{fault}\n"),
        }
    }
}

// The text of an answer: the line of a fault, or the lines of a report.
pub fn text(heap: Global, answer: &Result<Report, Fault>) -> Result<String, AllocError>
    ensures { IfOk result (λ s. string_bytes s ≡ answer_text answer.now) }
{
    let answer = Answer { answer };
    format!(in heap; "{answer}")
}
