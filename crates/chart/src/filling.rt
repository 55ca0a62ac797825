// How a span is filled: by which grammar and weighing, with which rules at hand, and what its last entry is.
ghost use Rattle.std.specs.Prelude.{◌≡◌};
ghost use Rattle.chart.specs.Gathers.{Gathers};

use super::span::Span;
use entries::entry::Entry;
use grammar::grammar::Grammar;
use grammar::rule::Rule;
use grammar::weighing::Weighing;

// The slots and the sums are lent to each method and are no fields, since parts of them are lent on.
#[derive(Drop)]
pub(crate) struct Filling<'a, G: Grammar, W: Weighing> {
    pub(crate) grammar: &'a G,
    pub(crate) weighing: &'a W,
    // the rules of the numbers below `next`, in order
    pub(crate) rules: &'a [Rule],
    pub(crate) next: u32,
    // the grammar's bound, asked for before the first span
    pub(crate) bound: u32,
    pub(crate) span: Span,
    pub(crate) last: Entry,
    ghost whole: { bound ≡ (G.meaning grammar.now).bound },
    ghost gathers: { Gathers (G.meaning grammar.now) rules.now next },
    ghost own: { span.cells ≡ (G.meaning grammar.now).nonterminals },
}
