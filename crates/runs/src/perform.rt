// One call of a run. `lent` and `shown` stand at each method: that a run keeps the borrow of its chart has to be a clause of its own.
ghost use Rattle.std.specs.Prelude.{◌≡◌, Ok};
ghost use Rattle.entries.specs.Model.{state};
ghost use Rattle.entries.specs.declared.call.Call.{Call};
ghost use Rattle.runs.specs.Calls.{Moved, Performed, SameShown};

use crate::run::Run;
use chart::chart::Chart;
use entries::call::Call;
use entries::trial::Trial;
use grammar::grammar::Grammar;
use grammar::refusal::Refusal;
use grammar::weighing::Weighing;
use semiring::semiring::Semiring;

// Spends the token in hand, if there is one; the mark is then clear, and nothing else changes.
pub(crate) fn settle<'a, S: Semiring>(chart: &mut Chart<'a, S>, held: Option<Trial>)
    ensures entries { (state chart.new.entries).entries ≡ (state chart.old.entries).entries }
    ensures own { chart.new.entries.nonterminals ≡ chart.old.entries.nonterminals }
    ensures same { chart.new.slots.cells.now ≡ chart.old.slots.cells.now }
    ensures named { chart.new.slots.cells.ghost_name ≡ chart.old.slots.cells.ghost_name }
{
    if let Some(trial) = held {
        let _ = chart.keep(trial);
    }
}

// Begins a run: the chart is cleared.
pub(crate) fn begin<'a, S: Semiring>(chart: &mut Chart<'a, S>)
    ensures { Moved S.ring Call.Clear (Ok tt) chart.old chart.new }
{
    chart.clear();
}

impl<'a, S: Semiring, G: Grammar, W: Weighing<Value = S>> Run<'_, '_, '_, 'a, S, G, W> {
    // Clears the chart; a token in hand is spent.
    #[tactic(auto, using(crate::proofs::Marks::cleared_mark))]
    fn clear(&mut self)
        ensures moved { Moved S.ring Call.Clear (Ok tt) self.old.chart.now self.new.chart.now }
        ensures lent { self.new.chart.ghost_name ≡ self.old.chart.ghost_name }
        ensures shown { SameShown self.old self.new }
    {
        settle(self.chart, self.held.take());
        begin(self.chart);
    }

    // Removes the last entry.
    #[tactic(auto, using(crate::proofs::Marks::took_back_mark))]
    fn take_back(&mut self) -> Result<(), Refusal>
        ensures moved { Moved S.ring Call.TakeBack result self.old.chart.now self.new.chart.now }
        ensures lent { self.new.chart.ghost_name ≡ self.old.chart.ghost_name }
        ensures shown { SameShown self.old self.new }
    {
        self.chart.take_back()
    }

    // Keeps the entry on trial, by the token in hand; without one, no trial is open.
    #[tactic(auto, using(crate::proofs::Marks::kept_mark))]
    fn keep(&mut self) -> Result<(), Refusal>
        ensures moved { Moved S.ring Call.Keep result self.old.chart.now self.new.chart.now }
        ensures lent { self.new.chart.ghost_name ≡ self.old.chart.ghost_name }
        ensures shown { SameShown self.old self.new }
    {
        let trial = self.held.take().ok_or(Refusal::NoTrial)?;
        self.chart.keep(trial)
    }

    // Withdraws the entry on trial, by the token in hand; without one, no trial is open. A method beside `keep`: one over a closure for the call would be no plainer.
    #[tactic(auto, using(crate::proofs::Marks::withdrawn_mark))]
    fn withdraw(&mut self) -> Result<(), Refusal>
        ensures moved { Moved S.ring Call.Withdraw result self.old.chart.now self.new.chart.now }
        ensures lent { self.new.chart.ghost_name ≡ self.old.chart.ghost_name }
        ensures shown { SameShown self.old self.new }
    {
        let trial = self.held.take().ok_or(Refusal::NoTrial)?;
        self.chart.withdraw(trial)
    }

    // Tries an entry, and holds the token.
    fn try_append(&mut self, bits: u32) -> Result<(), Refusal>
        ensures performed { Performed S.ring (W.weight self.old.weighing.now) (G.meaning self.old.grammar.now) (Call.Try bits) result self.old.chart.now self.new.chart.now }
        ensures lent { self.new.chart.ghost_name ≡ self.old.chart.ghost_name }
        ensures shown { SameShown self.old self.new }
    {
        let trial = self.chart.try_append(self.grammar, self.weighing, bits)?;
        self.held = Some(trial);
        Ok(())
    }

    // One call. A token in hand is spent by keep, withdraw and clear; keep and withdraw without one are answered that no trial is open. A match, since calls are values, which the model of a run works out in the same way.
    pub(crate) fn perform(&mut self, call: Call) -> Result<(), Refusal>
        ensures performed { Performed S.ring (W.weight self.old.weighing.now) (G.meaning self.old.grammar.now) call result self.old.chart.now self.new.chart.now }
        ensures lent { self.new.chart.ghost_name ≡ self.old.chart.ghost_name }
        ensures shown { SameShown self.old self.new }
    {
        match call {
            Call::Clear => {
                self.clear();
                Ok(())
            }
            Call::Append(bits) => self.chart.append(self.grammar, self.weighing, bits),
            Call::TakeBack => self.take_back(),
            Call::Replace(k, bits) => self.chart.replace(self.grammar, self.weighing, k, bits),
            Call::Try(bits) => self.try_append(bits),
            Call::Keep => self.keep(),
            Call::Withdraw => self.withdraw(),
        }
    }
}
