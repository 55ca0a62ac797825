// An automaton that is written step by step: a row for each state, with the state that a step on each code leads to.
ghost use Rattle.std.specs.Prelude.{◌≡◌, ℕ, ◌<◌, ◌≤◌, [], length, replicate, OnErr, slice_index, slice_index_or};
ghost use Rattle.grammar.specs.Derivations.{has};
ghost use Rattle.automata.specs.Making.{stay_at};

use crate::automaton::Automaton;
use grammar::refusal::Refusal;

#[derive(Clone, Copy)]
pub struct TableAutomaton {
    states: u32,
    codes: u32,
    start: u32,
    accepting: u8,
    next: [[u8; 32]; 8],
    ghost some: { 1 ≤ states },
    ghost few: { states ≤ 8 },
    ghost readable: { 1 ≤ codes },
    ghost coded: { codes ≤ 32 },
    ghost begins: { start < states },
    ghost whole: { (s : ℕ) → s < 8 → length (slice_index_or next s []) ≡ 32 },
    ghost within: { (s c : ℕ) → s < 8 → c < 32 → slice_index (slice_index_or next s []) c < states },
}

impl TableAutomaton {
    ghost use Rattle.grammar.specs.Refusals.{accepted_unless};
    ghost use Rattle.automata.specs.Making.{table_refused, table_made, write_refused, written_to, staying, written};
    ghost use Rattle.automata.specs.Held.{table_machine};

    // An automaton that stays in each state; bit s of `accepting` says whether state s accepts.
    // With a number out of range, or a bit for a state that it lacks, it has one code and one state, which does not accept: a value refused in the making is its smallest, so this answers a value beside a refusal.
    pub fn new(
        states: u32,
        codes: u32,
        start: u32,
        accepting: u8,
    ) -> (TableAutomaton, Option<Refusal>)
        ensures refusal { result.1 ≡ table_refused states codes start accepting }
        ensures means { table_machine result.0 ≡ table_made states codes start accepting }
    {
        let counted = (1..=8).contains(&states) && (1..=32).contains(&codes);
        if counted && start < states && u32::from(accepting) >> states == 0 {
            (TableAutomaton::made(states, codes, start, accepting), None)
        } else {
            (
                TableAutomaton::made(1, 1, 0, 0),
                Some(Refusal::NumberOutOfRange),
            )
        }
    }

    // From now on a step from `from` on `code` leads to `to`.
    pub fn write(&mut self, from: u32, code: u8, to: u32) -> Result<(), Refusal>
        ensures refusal { result ≡ accepted_unless (write_refused (table_machine self.old) from code to) }
        ensures means { table_machine self.new ≡ written_to from code to (table_machine self.old) }
        ensures same { OnErr result (self.new ≡ self.old) }
    {
        if from < self.states && u32::from(code) < self.codes && to < self.states {
            self.put(from, code, to);
            Ok(())
        } else {
            Err(Refusal::NumberOutOfRange)
        }
    }

    // The automaton with these numbers, in which each state stays.
    fn made(states: u32, codes: u32, start: u32, accepting: u8) -> TableAutomaton
        requires { (1 ≤ states) × ((states ≤ 8) × ((1 ≤ codes) × ((codes ≤ 32) × (start < states)))) }
        ensures { table_machine result ≡ staying states codes start accepting }
    {
        TableAutomaton {
            states,
            codes,
            start,
            accepting,
            next: stay(states),
        }
    }

    // Writes one step.
    fn put(&mut self, from: u32, code: u8, to: u32)
        requires { (from < self.old.states) × ((code < self.old.codes) × (to < self.old.states)) }
        ensures { table_machine self.new ≡ written from code to (table_machine self.old) }
    {
        self.next[from as usize][code as usize] = to as u8;
    }
}

impl Automaton for TableAutomaton {
    ghost use Rattle.automata.specs.Held.{table_machine};
    ghost use Rattle.automata.specs.Laws.Machined.{table_works, own_rows};

    ghost machine = { table_machine };

    ghost working = { λ a. table_works a.states a.codes a.start a.accepting a.next a.some a.few a.readable a.coded a.begins (own_rows a.states a.next a.few a.within) };

    fn states(&self) -> u32 {
        self.states
    }

    fn codes(&self) -> u32 {
        self.codes
    }

    fn start(&self) -> u32 {
        self.start
    }

    fn step(&self, state: u32, code: u8) -> Option<u32> {
        if state < self.states && u32::from(code) < self.codes {
            Some(u32::from(self.next[state as usize][code as usize]))
        } else {
            None
        }
    }

    fn accepts(&self, state: u32) -> bool {
        state < self.states && is_in(self.accepting, state)
    }
}

// Whether the bit of a state is set. An entry asks the same of its own 32 bits: one line over each width is no longer than a function below both.
fn is_in(set: u8, state: u32) -> bool
    requires { state < 8 }
    ensures { result ≡ has set state }
{
    (set >> state) % 2 == 1
}

// The rows in which each state stays. A row of a state that the automaton lacks holds zeros.
fn stay(states: u32) -> [[u8; 32]; 8]
    ensures whole { (s : ℕ) → s < 8 → length (slice_index_or result s []) ≡ 32 }
    ensures stay { (s c : ℕ) → s < 8 → c < 32 → slice_index (slice_index_or result s []) c ≡ stay_at states s }
{
    [
        row(0, states),
        row(1, states),
        row(2, states),
        row(3, states),
        row(4, states),
        row(5, states),
        row(6, states),
        row(7, states),
    ]
}

// The row of one state among these.
fn row(state: u8, states: u32) -> [u8; 32]
    ensures { result ≡ replicate 32 (stay_at states state) }
{
    if u32::from(state) < states {
        [state; 32]
    } else {
        [0; 32]
    }
}
