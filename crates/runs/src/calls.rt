// All calls of a list, one after another.
ghost use Rattle.std.specs.Prelude.{◌≡◌, ◌≢◌, ℕ, ◌<◌, length, is_some, Ok, slice_index_or};
ghost use Rattle.entries.specs.Model.{terms, state, empty};
ghost use Rattle.chart.specs.Stands.{ChartStands};
ghost use Rattle.runs.specs.Runs.{RanAll};
ghost use Rattle.runs.specs.Calls.{SameSlots, SameShown, Performed, RanAnew};

use crate::perform::begin;
use crate::run::Run;
use chart::chart::Chart;
use entries::call::Call;
use entries::trial::Trial;
use grammar::grammar::Grammar;
use grammar::refusal::Refusal;
use grammar::weighing::Weighing;
use semiring::semiring::Semiring;

// Writes an answer at a place, where there is room for it. By index: of what is written through `get_mut` nothing is proved.
fn write_answer(answer: Result<(), Refusal>, answers: &mut [Result<(), Refusal>], i: usize)
    ensures there { i < length answers.old → slice_index_or answers.new i (Ok tt) ≡ answer }
    ensures rest { (k : ℕ) → k ≢ i → slice_index_or answers.new k (Ok tt) ≡ slice_index_or answers.old k (Ok tt) }
{
    if i < answers.len() {
        answers[i] = answer;
    }
}

impl<'a, S: Semiring, G: Grammar, W: Weighing<Value = S>> Run<'_, '_, '_, 'a, S, G, W> {
    // One call, with its answer written at a place, where there is room for it.
    fn perform_at(
        &mut self,
        call: Call,
        answers: &mut [Result<(), Refusal>],
        i: usize,
    ) -> Result<(), Refusal>
        ensures performed { Performed S.ring (W.weight self.old.weighing.now) (G.meaning self.old.grammar.now) call result self.old.chart.now self.new.chart.now }
        ensures there { i < length answers.old → slice_index_or answers.new i (Ok tt) ≡ result }
        ensures rest { (k : ℕ) → k ≢ i → slice_index_or answers.new k (Ok tt) ≡ slice_index_or answers.old k (Ok tt) }
        ensures lent { self.new.chart.ghost_name ≡ self.old.chart.ghost_name }
        ensures shown { SameShown self.old self.new }
    {
        let answer = self.perform(call);
        write_answer(answer, answers, i);
        answer
    }

    // All calls of a list, with the answer to each, as far as there is room for the answers.
    fn perform_all(&mut self, calls: &[Call], answers: &mut [Result<(), Refusal>])
        ensures ran { RanAll (terms (G.meaning self.old.grammar.now) self.old.chart.now.entries.nonterminals (length self.old.chart.now.slots.cells.now)) (state self.old.chart.now.entries) calls.now (state self.new.chart.now.entries) answers.old answers.new }
        ensures stands { ChartStands S.ring (W.weight self.old.weighing.now) (G.meaning self.old.grammar.now) self.old.chart.now.entries self.old.chart.now.slots.cells.now → ChartStands S.ring (W.weight self.old.weighing.now) (G.meaning self.old.grammar.now) self.new.chart.now.entries self.new.chart.now.slots.cells.now }
        ensures slots { SameSlots self.old.chart.now self.new.chart.now }
        ensures lent { self.new.chart.ghost_name ≡ self.old.chart.ghost_name }
        ensures shown { SameShown self.old self.new }
    {
        for (i, call) in calls.iter().enumerate() {
            let _ = self.perform_at(*call, answers, i);
        }
    }
}

// Clears the chart and makes all calls of a list on it, with the answer to each, as far as there is room for the answers.
pub(crate) fn run_anew<'a, S: Semiring, G: Grammar, W: Weighing<Value = S>>(
    chart: &mut Chart<'a, S>,
    grammar: &G,
    weighing: &W,
    calls: &[Call],
    answers: &mut [Result<(), Refusal>],
) -> Option<Trial>
    ensures anew { RanAnew S.ring (W.weight weighing.now) (G.meaning grammar.now) calls.now chart.old chart.new answers.old answers.new }
    ensures held { is_some result ≡ chart.new.entries.trial }
{
    begin(chart);
    let mut run = Run {
        chart,
        grammar,
        weighing,
        held: None,
    };
    run.perform_all(calls, answers);
    let Run {
        chart: _,
        grammar: _,
        weighing: _,
        held,
    } = run;
    held
}
