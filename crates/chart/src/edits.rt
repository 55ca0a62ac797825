// The calls that write no slot: clear, take back, keep and withdraw. What they do is what they do to the entries.
// `same` and `named` stand at each call: two short equations, and one definition of both would be no plainer. `stands` is the promise of each call and no invariant of the chart, since grammar and weighing are shown at each call.
ghost use Rattle.std.specs.Prelude.{◌≡◌, ℕ, Ok};
ghost use Rattle.grammar.specs.Grammars.{Meaning};
ghost use Rattle.entries.specs.Model.{Terms, Did};
ghost use Rattle.entries.specs.declared.call.Call.{Call};
ghost use Rattle.chart.specs.Stands.{ChartStands};

use super::chart::Chart;
use entries::call::Call;
use entries::trial::Trial;
use grammar::refusal::Refusal;
use semiring::semiring::Semiring;

impl<'a, S: Semiring> Chart<'a, S> {
    // Empties the list of entries and clears the mark.
    pub fn clear(&mut self)
        ensures did { (t : Terms) → Did t self.old.entries Call.Clear (Ok tt) self.new.entries }
        ensures stands { (w : ℕ → ℕ → S) (m : Meaning) → ChartStands S.ring w m self.old.entries self.old.slots.cells.now → ChartStands S.ring w m self.new.entries self.new.slots.cells.now }
        ensures same { self.new.slots.cells.now ≡ self.old.slots.cells.now }
        ensures named { self.new.slots.cells.ghost_name ≡ self.old.slots.cells.ghost_name }
    {
        self.entries.clear();
    }

    // Removes the last entry.
    pub fn take_back(&mut self) -> Result<(), Refusal>
        ensures did { (t : Terms) → Did t self.old.entries Call.TakeBack result self.new.entries }
        ensures stands { (w : ℕ → ℕ → S) (m : Meaning) → ChartStands S.ring w m self.old.entries self.old.slots.cells.now → ChartStands S.ring w m self.new.entries self.new.slots.cells.now }
        ensures same { self.new.slots.cells.now ≡ self.old.slots.cells.now }
        ensures named { self.new.slots.cells.ghost_name ≡ self.old.slots.cells.ghost_name }
    {
        self.entries.take_back()
    }

    // Spends the token and clears the mark.
    pub fn keep(&mut self, trial: Trial) -> Result<(), Refusal>
        ensures did { (t : Terms) → Did t self.old.entries Call.Keep result self.new.entries }
        ensures stands { (w : ℕ → ℕ → S) (m : Meaning) → ChartStands S.ring w m self.old.entries self.old.slots.cells.now → ChartStands S.ring w m self.new.entries self.new.slots.cells.now }
        ensures same { self.new.slots.cells.now ≡ self.old.slots.cells.now }
        ensures named { self.new.slots.cells.ghost_name ≡ self.old.slots.cells.ghost_name }
    {
        self.entries.keep(trial)
    }

    // Spends the token, clears the mark and removes the last entry.
    pub fn withdraw(&mut self, trial: Trial) -> Result<(), Refusal>
        ensures did { (t : Terms) → Did t self.old.entries Call.Withdraw result self.new.entries }
        ensures stands { (w : ℕ → ℕ → S) (m : Meaning) → ChartStands S.ring w m self.old.entries self.old.slots.cells.now → ChartStands S.ring w m self.new.entries self.new.slots.cells.now }
        ensures same { self.new.slots.cells.now ≡ self.old.slots.cells.now }
        ensures named { self.new.slots.cells.ghost_name ≡ self.old.slots.cells.ghost_name }
    {
        self.entries.withdraw(trial)
    }
}
