// Making a chart, and what it answers.
ghost use Rattle.std.specs.Prelude.{length, ◌≡◌, ℕ, ◌<◌, IfOk, if◌then◌else◌};
ghost use Rattle.semiring.specs.Semirings.{sum_below};
ghost use Rattle.grammar.specs.Totals.{TotalOf, weight_of, by};
ghost use Rattle.grammar.specs.Derivations.{EntriesFromStarts};
ghost use Rattle.entries.specs.Model.{state, empty};
ghost use Rattle.chart.specs.Cells.{cell_at};
ghost use Rattle.chart.specs.Stands.{ChartStands};
ghost use Rattle.chart.specs.Reads.{cell_answer, total_answer};

use super::chart::Chart;
use super::slots::Slots;
use super::span::Span;
use entries::list::Entries;
use grammar::grammar::Grammar;
use grammar::refusal::Refusal;
use semiring::semiring::Semiring;

impl<'a, S: Semiring> Chart<'a, S> {
    // A chart for the grammar with no entries, whatever the slots hold.
    pub fn new<G: Grammar>(slots: &'a mut [S], grammar: &G) -> Chart<'a, S>
        ensures empty { state result.entries ≡ empty }
        ensures own { result.entries.nonterminals ≡ (G.meaning grammar.now).nonterminals }
        ensures same { result.slots.cells.now ≡ slots.old }
        ensures named { result.slots.cells.ghost_name ≡ slots.entry.ghost_name }
    {
        Chart {
            slots: Slots { cells: slots },
            entries: Entries::new(grammar.nonterminals()),
        }
    }

    // The entries and the mark, as they are now.
    pub fn entries(&self) -> Entries
        ensures { result ≡ self.now.entries }
    {
        self.entries
    }

    // The value of the cell of a nonterminal and the span from `begin` to `end`, if that is in use.
    pub fn cell(&self, begin: usize, end: usize, nonterminal: u32) -> Option<S>
        ensures { result ≡ cell_answer S.ring self.now.entries.nonterminals (length self.now.entries.list.items) self.now.slots.cells.now begin end nonterminal }
    {
        let n = self.entries.nonterminals();
        if begin < end && end <= self.entries.len() && nonterminal < n {
            let span = Span {
                begin,
                end,
                cells: n as usize,
            };
            Some(self.slots.cell(span, nonterminal as usize))
        } else {
            None
        }
    }

    // The sum of the cells of all entries over the starts; without entries it is zero.
    pub fn total<G: Grammar>(&self, grammar: &G) -> Result<S, Refusal>
        ensures is { result ≡ total_answer S.ring (G.meaning grammar.now) self.now.entries.nonterminals (length self.now.entries.list.items) self.now.slots.cells.now }
        ensures total { (w : ℕ → ℕ → S) → ChartStands S.ring w (G.meaning grammar.now) self.now.entries self.now.slots.cells.now → IfOk result (TotalOf S.ring (EntriesFromStarts (G.meaning grammar.now) (state self.now.entries).entries) (weight_of S.ring (by w) (G.meaning grammar.now))) }
    {
        if grammar.nonterminals() != self.entries.nonterminals() {
            return Err(Refusal::OtherGrammar);
        }
        if self.entries.len() == 0 {
            return Ok(S::zero());
        }
        Ok(self.start_sum(grammar))
    }

    // The sum of the cells of all entries over the starts.
    #[tactic(auto, using(semiring::proofs::Sums::sum_none, semiring::proofs::Sums::sum_more))]
    fn start_sum<G: Grammar>(&self, grammar: &G) -> S
        requires { 0 < (length self.now.entries.list.items) }
        ensures { result ≡ sum_below S.ring self.now.entries.nonterminals (λ A. if (G.meaning grammar.now).start A then cell_at S.ring self.now.entries.nonterminals self.now.slots.cells.now 0 (length self.now.entries.list.items) A else S.ring.zero) }
    {
        let mut sum = S::zero();
        for a in 0..self.entries.nonterminals() {
            if grammar.is_start(a) {
                sum = sum.add(self.whole_cell(a));
            }
        }
        sum
    }

    // The cell of all entries and a nonterminal.
    fn whole_cell(&self, a: u32) -> S
        requires some { 0 < (length self.now.entries.list.items) }
        requires named { a < self.now.entries.nonterminals }
        ensures { result ≡ cell_at S.ring self.now.entries.nonterminals self.now.slots.cells.now 0 (length self.now.entries.list.items) a }
    {
        let whole = Span {
            begin: 0,
            end: self.entries.len(),
            cells: self.entries.nonterminals() as usize,
        };
        self.slots.cell(whole, a as usize)
    }

    // The slots, given back.
    pub fn into_slots(self) -> &'a mut [S]
        ensures same { result.now ≡ self.entry.slots.cells.now }
        ensures named { result.ghost_name ≡ self.entry.slots.cells.ghost_name }
    {
        let Chart { slots, entries: _ } = self;
        let Slots { cells } = slots;
        cells
    }
}
