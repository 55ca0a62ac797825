// What the rules add to the cells of a span.
ghost use Rattle.std.specs.Prelude.{◌≡◌, ◌+◌, ◌<◌, ◌&&◌, List, length, fold, MatchOption, ◌==◌};
ghost use Rattle.grammar.specs.Derivations.{has};
ghost use Rattle.grammar.specs.Spans as spans;
ghost use Rattle.grammar.specs.Totals.{by};
ghost use Rattle.chart.specs.Cells as cells;
ghost use Rattle.chart.specs.Columns as columns;
ghost use Rattle.chart.specs.Gathers.{Named};
ghost use Rattle.chart.specs.Sums.{Noted, Later};

use super::cells::Cells;
use super::filling::Filling;
use super::span::Span;
use super::sums::{Key, Sum};
use grammar::grammar::Grammar;
use grammar::rule::{Expansion, Rule};
use grammar::weighing::Weighing;
use semiring::semiring::Semiring;

// Adds a value to a cell of the span.
fn add_to_cell<S: Semiring>(slots: &mut [S], span: Span, a: usize, value: S)
    requires room { cells.Room span.cells span.end (length slots.old) }
    requires named { a < span.cells }
    ensures { slots.new ≡ cells.added S.ring span.cells slots.old span.begin span.end a value }
{
    let at = Cells { slots, span }.place(a);
    slots[at] = slots[at].add(value);
}

impl<'a, G: Grammar, W: Weighing> Filling<'a, G, W> {
    // Whether a leaf rule to the code counts at the span: where it is one entry that has the code.
    fn leaf_counts(&self, code: u8) -> bool
        ensures { result ≡ (self.now.span.begin + 1 == self.now.span.end && has self.now.last.bits code) }
    {
        self.span.is_single() && self.last.has(code)
    }

    // What a rule adds to its cell: a pair rule, at a span of several entries, its weight times the sum over the cuts; a leaf rule its weight, at one entry that has its code.
    fn share(&self, slots: &[W::Value], sums: &mut [Sum<W::Value>], rule: &Rule) -> Option<W::Value>
        requires named { Named self.now.span.cells rule.now }
        requires known { Noted W.Value.Semiring.ring self.now.span slots.now sums.old }
        ensures share { let share = spans.share W.Value.Semiring.ring (cells.cell_at W.Value.Semiring.ring self.now.span.cells slots.now) (by (W.weight self.now.weighing.now) rule.now) self.now.last.bits self.now.span.begin self.now.span.end rule.now.expansion in
            MatchOption result (share ≡ W.Value.Semiring.ring.zero) (λ v. v ≡ share) }
        ensures known { Noted W.Value.Semiring.ring self.now.span slots.now sums.new }
    {
        match rule.expansion {
            Expansion::Pair { left, right } => {
                if self.span.is_single() {
                    return None;
                }
                let cells = Cells {
                    slots,
                    span: self.span,
                };
                let sum = cells.known_sum(sums, Key { left, right });
                Some(self.weighing.weigh(rule).mul(sum))
            }
            Expansion::Leaf { code } => {
                if self.leaf_counts(code) {
                    Some(self.weighing.weigh(rule))
                } else {
                    None
                }
            }
        }
    }

    // Adds a rule's share to its cell.
    fn add_rule(&self, slots: &mut [W::Value], sums: &mut [Sum<W::Value>], rule: &Rule)
        requires named { Named self.now.span.cells rule.now }
        requires known { Noted W.Value.Semiring.ring self.now.span slots.old sums.old }
        ensures added { slots.new ≡ columns.with_rule W.Value.Semiring.ring (by (W.weight self.now.weighing.now)) self.now.span.cells self.now.last.bits self.now.span.begin self.now.span.end slots.old rule.now }
        ensures known { Noted W.Value.Semiring.ring self.now.span slots.new sums.new }
    {
        if let Some(share) = self.share(slots, sums, rule) {
            add_to_cell(slots, self.span, rule.lhs as usize, share);
        }
    }

    // Adds the shares of the rules at hand, one after the other.
    fn add_rules(&self, slots: &mut [W::Value], sums: &mut [Sum<W::Value>])
        requires known { Noted W.Value.Semiring.ring self.now.span slots.old sums.old }
        ensures added { slots.new ≡ fold (columns.with_rule W.Value.Semiring.ring (by (W.weight self.now.weighing.now)) self.now.span.cells self.now.last.bits self.now.span.begin self.now.span.end) slots.old self.now.rules.now }
        ensures known { Noted W.Value.Semiring.ring self.now.span slots.new sums.new }
    {
        for rule in self.rules {
            self.add_rule(slots, sums, rule);
        }
    }

    // Adds the share of one rule number, if it has a rule.
    fn add_number(&self, slots: &mut [W::Value], sums: &mut [Sum<W::Value>], number: u32)
        requires known { Noted W.Value.Semiring.ring self.now.span slots.old sums.old }
        ensures added { slots.new ≡ columns.with_any W.Value.Semiring.ring (by (W.weight self.now.weighing.now)) self.now.span.cells self.now.last.bits self.now.span.begin self.now.span.end slots.old ((G.meaning self.now.grammar.now).rule number) }
        ensures known { Noted W.Value.Semiring.ring self.now.span slots.new sums.new }
    {
        if let Some(rule) = self.grammar.rule(number) {
            self.add_rule(slots, sums, &rule);
        }
    }

    // Goes on with the rules that are not at hand.
    fn add_numbers(&self, slots: &mut [W::Value], sums: &mut [Sum<W::Value>])
        requires known { Noted W.Value.Semiring.ring self.now.span slots.old sums.old }
        ensures rows { (xs : List (W.Value)) → columns.Row W.Value.Semiring.ring (by (W.weight self.now.weighing.now)) (G.meaning self.now.grammar.now) self.now.last.bits self.now.span.begin self.now.span.end self.now.next xs slots.old → columns.Row W.Value.Semiring.ring (by (W.weight self.now.weighing.now)) (G.meaning self.now.grammar.now) self.now.last.bits self.now.span.begin self.now.span.end (G.meaning self.now.grammar.now).bound xs slots.new }
        ensures known { Noted W.Value.Semiring.ring self.now.span slots.new sums.new }
    {
        for number in self.next..self.bound {
            self.add_number(slots, sums, number);
        }
    }

    // Adds to each cell of the span the shares of all rules: of those at hand, and then of the others. The sums are of spans that begin later.
    pub(crate) fn fill_row(&self, slots: &mut [W::Value], sums: &mut [Sum<W::Value>])
        requires room { cells.Room self.now.span.cells self.now.span.end (length slots.old) }
        requires later { Later (self.now.span.begin + 1) sums.old }
        ensures row { columns.Row W.Value.Semiring.ring (by (W.weight self.now.weighing.now)) (G.meaning self.now.grammar.now) self.now.last.bits self.now.span.begin self.now.span.end (G.meaning self.now.grammar.now).bound slots.old slots.new }
        ensures later { Later self.now.span.begin sums.new }
    {
        self.add_rules(slots, sums);
        self.add_numbers(slots, sums);
    }
}
