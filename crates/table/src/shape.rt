// What a table grammar declares: how many nonterminals and codes, and its start.
ghost use Rattle.std.specs.Prelude.{◌≡◌, ◌<◌, ◌≤◌, Some, None, MatchResult};

use grammar::refusal::Refusal;
use grammar::rule::Expansion;

#[derive(Clone, Copy)]
pub(crate) struct Shape {
    pub(crate) nonterminals: u32,
    pub(crate) codes: u32,
    pub(crate) start: u32,
    ghost some: { 1 ≤ nonterminals },
    ghost few: { nonterminals ≤ 32 },
    ghost readable: { 1 ≤ codes },
    ghost coded: { codes ≤ 32 },
    ghost begins: { start < nonterminals },
}

impl Shape {
    ghost use Rattle.table.specs.Tables.{is_declared};
    ghost use Rattle.table.specs.Drafts.{out_of_range};

    // The smallest shape, of a draft that is refused.
    pub(crate) const SMALLEST: Shape = Shape {
        nonterminals: 1,
        codes: 1,
        start: 0,
    };

    // The shape with these counts and this start, where they are in range.
    pub(crate) fn new(nonterminals: u32, codes: u32, start: u32) -> Result<Shape, Refusal>
        ensures { MatchResult result (λ s. (out_of_range nonterminals codes start ≡ None) × ((s.nonterminals ≡ nonterminals) × ((s.codes ≡ codes) × (s.start ≡ start)))) (λ why. out_of_range nonterminals codes start ≡ Some why) }
    {
        if (1..=32).contains(&nonterminals) && (1..=32).contains(&codes) && start < nonterminals {
            Ok(Shape {
                nonterminals,
                codes,
                start,
            })
        } else {
            Err(Refusal::GrammarOutOfRange)
        }
    }

    // Whether a rule names only what is declared.
    pub(crate) fn declares(self, lhs: u32, expansion: Expansion) -> bool
        ensures { result ≡ is_declared self.nonterminals self.codes lhs expansion }
    {
        lhs < self.nonterminals
            && match expansion {
                Expansion::Pair { left, right } => {
                    left < self.nonterminals && right < self.nonterminals
                }
                Expansion::Leaf { code } => u32::from(code) < self.codes,
            }
    }
}
