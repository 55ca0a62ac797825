// Adding an entry at the end, for good or on trial.
// `long` and `named` stand at each call: two short equations, and one definition of both would be no plainer. `stands` is the promise of each call and no invariant of the chart, since grammar and weighing are shown at each call.
ghost use Rattle.std.specs.Prelude.{◌≡◌, ◌+◌, false, length, IfOk, MatchResult};
ghost use Rattle.grammar.specs.Totals.{by};
ghost use Rattle.entries.specs.Model.{terms, plain, Did};
ghost use Rattle.entries.specs.declared.call.Call.{Call};
ghost use Rattle.chart.specs.Columns.{Column};
ghost use Rattle.chart.specs.Stands.{ChartStands};

use super::chart::Chart;
use entries::call::Call;
use entries::trial::Trial;
use grammar::grammar::Grammar;
use grammar::refusal::Refusal;
use grammar::weighing::Weighing;
use semiring::semiring::Semiring;

impl<'a, S: Semiring> Chart<'a, S> {
    // Adds an entry at the end, and fills the spans that end with it.
    pub fn append<G: Grammar, W: Weighing<Value = S>>(
        &mut self,
        grammar: &G,
        weighing: &W,
        bits: u32,
    ) -> Result<(), Refusal>
        ensures did { Did (terms (G.meaning grammar.now) self.old.entries.nonterminals (length self.old.slots.cells.now)) self.old.entries (Call.Append bits) result self.new.entries }
        ensures writes { MatchResult result (λ _. Column S.ring (by (W.weight weighing.now)) (G.meaning grammar.now) bits 0 ((length self.old.entries.list.items) + 1) ((length self.old.entries.list.items) + 1) self.old.slots.cells.now self.new.slots.cells.now) (λ _. self.new ≡ self.old) }
        ensures stands { ChartStands S.ring (W.weight weighing.now) (G.meaning grammar.now) self.old.entries self.old.slots.cells.now → ChartStands S.ring (W.weight weighing.now) (G.meaning grammar.now) self.new.entries self.new.slots.cells.now }
        ensures long { length self.new.slots.cells.now ≡ length self.old.slots.cells.now }
        ensures named { self.new.slots.cells.ghost_name ≡ self.old.slots.cells.ghost_name }
    {
        let slots = self.slots.len();
        self.entries.append(grammar, slots, bits)?;
        let last = self.entries.len() - 1;
        self.slots.refill(grammar, weighing, &self.entries, last);
        Ok(())
    }

    // Adds an entry at the end, sets the mark, and hands out the token that keep or withdraw takes back.
    pub fn try_append<G: Grammar, W: Weighing<Value = S>>(
        &mut self,
        grammar: &G,
        weighing: &W,
        bits: u32,
    ) -> Result<Trial, Refusal>
        ensures did { Did (terms (G.meaning grammar.now) self.old.entries.nonterminals (length self.old.slots.cells.now)) self.old.entries (Call.Try bits) (plain result) self.new.entries }
        ensures unspent { IfOk result (λ t. t.spent ≡ false) }
        ensures writes { MatchResult result (λ _. Column S.ring (by (W.weight weighing.now)) (G.meaning grammar.now) bits 0 ((length self.old.entries.list.items) + 1) ((length self.old.entries.list.items) + 1) self.old.slots.cells.now self.new.slots.cells.now) (λ _. self.new ≡ self.old) }
        ensures stands { ChartStands S.ring (W.weight weighing.now) (G.meaning grammar.now) self.old.entries self.old.slots.cells.now → ChartStands S.ring (W.weight weighing.now) (G.meaning grammar.now) self.new.entries self.new.slots.cells.now }
        ensures long { length self.new.slots.cells.now ≡ length self.old.slots.cells.now }
        ensures named { self.new.slots.cells.ghost_name ≡ self.old.slots.cells.ghost_name }
    {
        self.append(grammar, weighing, bits)?;
        Ok(self.entries.open_trial())
    }
}
