// An entry: a set of codes that is never empty.
ghost use Rattle.std.specs.Prelude.{◌≡◌, ◌/◌, ◌%◌, ◌^◌, ◌<◌, MatchOption};
ghost use Rattle.grammar.specs.Derivations.{has as has_code};

#[derive(Clone, Copy)]
pub struct Entry {
    bits: u32,
    ghost some: { 0 < bits },
    ghost fits: { bits < 2 ^ 32 },
}

impl Entry {
    // The set of the codes whose bits are set; none where no bit is.
    pub fn new(bits: u32) -> Option<Entry>
        ensures { MatchOption result (bits ≡ 0) (λ e. e.bits ≡ bits) }
    {
        if bits == 0 {
            None
        } else {
            Some(Entry { bits })
        }
    }

    // The set of code 0 alone.
    pub(crate) fn first_code() -> Entry
        ensures { result.bits ≡ 1 }
    {
        Entry { bits: 1 }
    }

    // The set as bits: bit c is set where code c is in it.
    pub fn bits(self) -> u32
        ensures { result ≡ self.bits }
    {
        self.bits
    }

    // Whether the code is in the set.
    #[tactic(auto, unfolding(grammar::specs::Derivations::has))]
    pub fn has(self, code: u8) -> bool
        ensures { result ≡ has_code self.bits code }
    {
        code < 32 && self.bit(code) == 1
    }

    // The bit of a code. An automaton asks the same of its own 8 bits: one line over each width is no longer than a function below both.
    fn bit(self, code: u8) -> u32
        requires { code < 32 }
        ensures { result ≡ self.bits / 2 ^ code % 2 }
    {
        (self.bits >> code) % 2
    }
}
