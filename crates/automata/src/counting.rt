// An automaton that counts a code up to `most`, and accepts there.
ghost use Rattle.std.specs.Prelude.{◌≡◌, ◌<◌, ◌≤◌};

use crate::automaton::Automaton;
use grammar::refusal::Refusal;

#[derive(Clone, Copy)]
pub struct CountingAutomaton {
    codes: u32,
    code: u8,
    most: u32,
    ghost readable: { 1 ≤ codes },
    ghost coded: { codes ≤ 32 },
    ghost known: { code < codes },
    ghost few: { most ≤ 7 },
}

impl CountingAutomaton {
    ghost use Rattle.automata.specs.Making.{counting_refused, counting_made};
    ghost use Rattle.automata.specs.Held.{counting_machine};

    // Counts `code` of `codes` codes up to `most`.
    // With a number out of range it has one code and one state, which accepts: a value refused in the making is its smallest, so this answers a value beside a refusal.
    pub fn new(codes: u32, code: u8, most: u32) -> (CountingAutomaton, Option<Refusal>)
        ensures refusal { result.1 ≡ counting_refused codes code most }
        ensures means { counting_machine result.0 ≡ counting_made codes code most }
    {
        if (1..=32).contains(&codes) && u32::from(code) < codes && most <= 7 {
            (CountingAutomaton { codes, code, most }, None)
        } else {
            (
                CountingAutomaton {
                    codes: 1,
                    code: 0,
                    most: 0,
                },
                Some(Refusal::NumberOutOfRange),
            )
        }
    }
}

impl Automaton for CountingAutomaton {
    ghost use Rattle.automata.specs.Held.{counting_machine};
    ghost use Rattle.automata.specs.Laws.Machined.{counting_works};

    ghost machine = { counting_machine };

    ghost working = { λ a. counting_works a.codes a.code a.most a.readable a.coded a.known a.few };

    fn states(&self) -> u32 {
        self.most + 1
    }

    fn codes(&self) -> u32 {
        self.codes
    }

    fn start(&self) -> u32 {
        0
    }

    fn step(&self, state: u32, code: u8) -> Option<u32> {
        if state > self.most || u32::from(code) >= self.codes {
            return None;
        }
        if code == self.code && state < self.most {
            Some(state + 1)
        } else {
            Some(state)
        }
    }

    fn accepts(&self, state: u32) -> bool {
        state == self.most
    }
}
