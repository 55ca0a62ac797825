// The rules of the known grammar under any number of nonterminals and any bound.
ghost use Rattle.std.specs.Prelude.{◌≡◌, ◌≤◌};
ghost use Rattle.layers.specs.Laws.Wide.{wide, wide_shown};

use grammar::grammar::Grammar;
use grammar::rule::{Expansion, Rule};

#[derive(Clone, Copy)]
pub struct Wide {
    nonterminals: u32,
    bound: u32,
    ghost some: { 1 ≤ nonterminals },
    ghost few: { nonterminals ≤ 4096 },
    ghost enough: { 3 ≤ bound },
    ghost bounded: { bound ≤ 16777216 },
}

impl Wide {
    // So many nonterminals and this bound, or the nearest that a grammar may have.
    pub(crate) fn new(nonterminals: u32, bound: u32) -> Wide {
        Wide {
            nonterminals: nonterminals.clamp(1, 4096),
            bound: bound.clamp(3, 16777216),
        }
    }
}

impl Grammar for Wide {
    ghost meaning = { λ g. wide g.nonterminals g.bound };

    ghost shown = { λ g. wide_shown g.nonterminals g.bound g.some g.few g.enough g.bounded };

    fn nonterminals(&self) -> u32 {
        self.nonterminals
    }

    fn codes(&self) -> u32 {
        2
    }

    fn bound(&self) -> u32 {
        self.bound
    }

    fn rule(&self, number: u32) -> Option<Rule> {
        match number {
            0 => Some(Rule {
                lhs: 0,
                expansion: Expansion::Pair { left: 0, right: 0 },
                cost: 1,
                bottom: 0,
            }),
            1 => Some(Rule {
                lhs: 0,
                expansion: Expansion::Leaf { code: 0 },
                cost: 2,
                bottom: 1,
            }),
            2 => Some(Rule {
                lhs: 0,
                expansion: Expansion::Leaf { code: 1 },
                cost: 3,
                bottom: 2,
            }),
            _ => None,
        }
    }

    fn is_start(&self, nonterminal: u32) -> bool {
        nonterminal == 0
    }
}
