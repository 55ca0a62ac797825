// Filling the spans that end at one place, narrow ones first.
ghost use Rattle.std.specs.Prelude.{◌≡◌, ◌<◌, ◌≤◌, length, All};
ghost use Rattle.grammar.specs.Totals.{by};
ghost use Rattle.chart.specs.Cells as cells;
ghost use Rattle.chart.specs.Columns as columns;
ghost use Rattle.chart.specs.Sums.{Later};

use super::column::Column;
use super::filling::Filling;
use super::span::Span;
use super::sums::{Key, Sum};
use grammar::grammar::Grammar;
use grammar::weighing::Weighing;
use semiring::semiring::Semiring;

// Sets every slot to zero.
fn wipe<S: Semiring>(slots: &mut [S])
    ensures { All (λ v. v ≡ S.ring.zero) slots.new }
{
    // A loop: `fill` asks that a clone cannot fail, which a semiring does not say, and of `fill_with` the check found no proof.
    for slot in slots.iter_mut() {
        *slot = S::zero();
    }
}

impl<'a, G: Grammar, W: Weighing> Column<'a, G, W> {
    // Sets the cells of its spans to zero: a part of the slots that starts in their middle.
    fn clear(&self, slots: &mut [W::Value])
        requires { cells.Room self.now.widest.span.cells self.now.widest.span.end (length slots.old) }
        ensures { columns.Cleared W.Value.Semiring.ring self.now.widest.span.cells self.now.widest.span.end self.now.upto slots.old slots.new }
    {
        let first = self.widest.span.slot(0);
        let past = first + self.upto * self.widest.span.cells;
        wipe(&mut slots[first..past]);
    }

    // Fills its spans, which are zero, narrow ones first.
    fn fill_rows(&self, slots: &mut [W::Value], sums: &mut [Sum<W::Value>])
        requires room { cells.Room self.now.widest.span.cells self.now.widest.span.end (length slots.old) }
        requires zero { columns.Column W.Value.Semiring.ring (by (W.weight self.now.widest.weighing.now)) (G.meaning self.now.widest.grammar.now) self.now.widest.last.bits self.now.upto self.now.upto self.now.widest.span.end slots.old slots.old }
        requires later { Later self.now.upto sums.old }
        ensures { columns.Column W.Value.Semiring.ring (by (W.weight self.now.widest.weighing.now)) (G.meaning self.now.widest.grammar.now) self.now.widest.last.bits 0 self.now.upto self.now.widest.span.end slots.old slots.new }
    {
        let Span { end, cells, .. } = self.widest.span;
        for begin in (0..self.upto).rev() {
            let row = Filling {
                grammar: self.widest.grammar,
                weighing: self.widest.weighing,
                rules: self.widest.rules,
                next: self.widest.next,
                bound: self.widest.bound,
                span: Span { begin, end, cells },
                last: self.widest.last,
            };
            row.fill_row(slots, sums);
        }
    }

    // Fills its spans, with room for so many sums, of which none is of its spans yet.
    fn fill_with(&self, slots: &mut [W::Value], sums: &mut [Sum<W::Value>])
        requires room { cells.Room self.now.widest.span.cells self.now.widest.span.end (length slots.old) }
        requires later { Later self.now.upto sums.old }
        ensures { columns.Column W.Value.Semiring.ring (by (W.weight self.now.widest.weighing.now)) (G.meaning self.now.widest.grammar.now) self.now.widest.last.bits 0 self.now.upto self.now.widest.span.end slots.old slots.new }
    {
        self.clear(slots);
        self.fill_rows(slots, sums);
    }

    // Fills its spans with shared sums, of which there are fewer than slots. A function pays at its entry for its locals: so the sums are those of a function of its own.
    #[inline(never)]
    fn fill_shared<const N: usize>(&self, slots: &mut [W::Value])
        requires room { cells.Room self.now.widest.span.cells self.now.widest.span.end (length slots.old) }
        requires few { N ≤ 64 }
        requires many { 64 < length slots.old }
        ensures { columns.Column W.Value.Semiring.ring (by (W.weight self.now.widest.weighing.now)) (G.meaning self.now.widest.grammar.now) self.now.widest.last.bits 0 self.now.upto self.now.widest.span.end slots.old slots.new }
    {
        // A key of no rule, and no Option, which each look at a sum would test.
        let blank = Sum {
            key: Key {
                left: u32::MAX,
                right: u32::MAX,
            },
            begin: usize::MAX,
            value: W::Value::zero(),
        };
        let mut sums = [blank; N];
        self.fill_with(slots, &mut sums);
    }

    // Fills its spans. With fewer than two rules at hand there are no shared sums, nor in a chart of few slots, nor in one of wide values, of which 64 would take much memory. The size is written as a product, since the check knows it in no other form.
    pub(crate) fn fill(&self, slots: &mut [W::Value])
        requires room { cells.Room self.now.widest.span.cells self.now.widest.span.end (length slots.old) }
        ensures { columns.Column W.Value.Semiring.ring (by (W.weight self.now.widest.weighing.now)) (G.meaning self.now.widest.grammar.now) self.now.widest.last.bits 0 self.now.upto self.now.widest.span.end slots.old slots.new }
    {
        let rules = self.widest.rules.len();
        if rules < 2 || slots.len() <= 64 || 1 * size_of::<W::Value>() > 64 {
            let mut none = [];
            self.fill_with(slots, &mut none);
        } else if rules <= 16 {
            self.fill_shared::<16>(slots);
        } else {
            self.fill_shared::<64>(slots);
        }
    }
}
