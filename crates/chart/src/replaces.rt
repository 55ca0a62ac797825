// Changing the entry at a place. Why `stands`, `long` and `named` stand at each call is said of the calls that add an entry.
ghost use Rattle.std.specs.Prelude.{◌≡◌, ◌+◌, length, MatchResult};
ghost use Rattle.grammar.specs.Totals.{by};
ghost use Rattle.entries.specs.Model.{state, terms, Did};
ghost use Rattle.entries.specs.declared.call.Call.{Call};
ghost use Rattle.chart.specs.Columns.{Refilled};
ghost use Rattle.chart.specs.Stands.{ChartStands};

use super::chart::Chart;
use entries::call::Call;
use grammar::grammar::Grammar;
use grammar::refusal::Refusal;
use grammar::weighing::Weighing;
use semiring::semiring::Semiring;

impl<'a, S: Semiring> Chart<'a, S> {
    // Changes the entry at the place `k`, and fills anew the spans that cover it.
    pub fn replace<G: Grammar, W: Weighing<Value = S>>(
        &mut self,
        grammar: &G,
        weighing: &W,
        k: usize,
        bits: u32,
    ) -> Result<(), Refusal>
        ensures did { Did (terms (G.meaning grammar.now) self.old.entries.nonterminals (length self.old.slots.cells.now)) self.old.entries (Call.Replace k bits) result self.new.entries }
        ensures writes { MatchResult result (λ _. Refilled S.ring (by (W.weight weighing.now)) (G.meaning grammar.now) (state self.new.entries).entries k ((length self.new.entries.list.items) + 1) self.old.slots.cells.now self.new.slots.cells.now) (λ _. self.new ≡ self.old) }
        ensures stands { ChartStands S.ring (W.weight weighing.now) (G.meaning grammar.now) self.old.entries self.old.slots.cells.now → ChartStands S.ring (W.weight weighing.now) (G.meaning grammar.now) self.new.entries self.new.slots.cells.now }
        ensures long { length self.new.slots.cells.now ≡ length self.old.slots.cells.now }
        ensures named { self.new.slots.cells.ghost_name ≡ self.old.slots.cells.ghost_name }
    {
        self.entries.replace(grammar, k, bits)?;
        self.slots.refill(grammar, weighing, &self.entries, k);
        Ok(())
    }
}
