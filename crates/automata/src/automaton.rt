// A deterministic automaton by its meaning: it replies to each question as it means, the same each time.
ghost use Rattle.std.specs.Prelude.{◌≡◌};
ghost use Rattle.automata.specs.Machines.{Machine, Working};

pub trait Automaton {
    ghost machine: { Self → Machine };

    // its ranges hold, and every step within them leads to a state
    ghost working: { (a : Self) → Working (machine a) };

    fn states(&self) -> u32
        ensures { result ≡ (machine self.now).states };

    fn codes(&self) -> u32
        ensures { result ≡ (machine self.now).codes };

    fn start(&self) -> u32
        ensures { result ≡ (machine self.now).start };

    fn step(&self, state: u32, code: u8) -> Option<u32>
        ensures { result ≡ (machine self.now).step state code };

    fn accepts(&self, state: u32) -> bool
        ensures { result ≡ (machine self.now).accepts state };
}
