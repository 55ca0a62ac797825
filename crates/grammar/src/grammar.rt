// A grammar by its meaning: it replies to each question as it means, the same each time.
ghost use Rattle.std.specs.Prelude.{◌≡◌};
ghost use Rattle.grammar.specs.Grammars.{Meaning, Shown};

use super::rule::Rule;

pub trait Grammar {
    ghost meaning: { Self → Meaning };

    // its ranges hold, and its rules name only what is declared
    ghost shown: { (g : Self) → Shown (meaning g) };

    fn nonterminals(&self) -> u32
        ensures { result ≡ (meaning self.now).nonterminals };

    fn codes(&self) -> u32
        ensures { result ≡ (meaning self.now).codes };

    fn bound(&self) -> u32
        ensures { result ≡ (meaning self.now).bound };

    fn rule(&self, number: u32) -> Option<Rule>
        ensures { result ≡ (meaning self.now).rule number };

    fn is_start(&self, nonterminal: u32) -> bool
        ensures { result ≡ (meaning self.now).start nonterminal };
}
