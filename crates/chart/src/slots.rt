// The slots that the caller provides.
ghost use Rattle.std.specs.Prelude.{◌≡◌, ◌+◌, ◌<◌, ◌≤◌, length};
ghost use Rattle.grammar.specs.Totals.{by};
ghost use Rattle.chart.specs.Cells as cells;
ghost use Rattle.chart.specs.Columns as columns;
ghost use Rattle.entries.specs.Model.{state};
ghost use Rattle.chart.specs.Gathers.{Gathers};

use super::cells::Cells;
use super::column::Column;
use super::filling::Filling;
use super::gathered::{AtHand, Gathered};
use super::span::Span;
use entries::list::Entries;
use grammar::grammar::Grammar;
use grammar::weighing::Weighing;
use semiring::semiring::Semiring;

#[derive(Drop)]
pub struct Slots<'a, S: Semiring> {
    pub(crate) cells: &'a mut [S],
}

// How many rules there is room for, of a grammar with so many numbers.
fn room(bound: u32) -> usize
    ensures { result ≤ 256 }
{
    match bound {
        0..=16 => 16,
        17..=64 => 64,
        _ => 256,
    }
}

impl<'a, S: Semiring> Slots<'a, S> {
    // How many slots there are.
    pub(crate) fn len(&self) -> usize
        ensures { result ≡ length self.now.cells.now }
    {
        self.cells.len()
    }

    // The value of the cell of a span and `a`.
    pub(crate) fn cell(&self, span: Span, a: usize) -> S
        requires room { cells.Room span.cells span.end (length self.now.cells.now) }
        requires named { a < span.cells }
        ensures { result ≡ cells.cell_at S.ring span.cells self.now.cells.now span.begin span.end a }
    {
        Cells {
            slots: &*self.cells,
            span,
        }
        .value(a)
    }

    // Fills anew the spans in use that cover entry `k`, with these rules at hand.
    fn refill_with<G: Grammar, W: Weighing<Value = S>>(
        &mut self,
        grammar: &G,
        weighing: &W,
        at_hand: AtHand<'_>,
        entries: &Entries,
        k: usize,
    )
        requires room { cells.Room (G.meaning grammar.now).nonterminals (length entries.now.list.items) (length self.old.cells.now) }
        requires entry { k < (length entries.now.list.items) }
        requires gathers { Gathers (G.meaning grammar.now) at_hand.rules.now at_hand.next }
        ensures filled { columns.Refilled S.ring (by (W.weight weighing.now)) (G.meaning grammar.now) (state entries.now).entries k ((length entries.now.list.items) + 1) self.old.cells.now self.new.cells.now }
        ensures long { length self.new.cells.now ≡ length self.old.cells.now }
        ensures named { self.new.cells.ghost_name ≡ self.old.cells.ghost_name }
    {
        let slots = &mut *self.cells;
        let cells = grammar.nonterminals() as usize;
        let bound = grammar.bound();
        for (i, last) in entries.all()[k..].iter().enumerate() {
            let widest = Filling {
                grammar,
                weighing,
                rules: at_hand.rules,
                next: at_hand.next,
                bound,
                span: Span {
                    begin: 0,
                    end: k + i + 1,
                    cells,
                },
                last: *last,
            };
            Column {
                widest,
                upto: k + 1,
            }
            .fill(slots);
        }
    }

    // Fills anew the spans in use that cover entry `k`, with room for so many rules at hand. A function pays at its entry for its locals: so the room is that of a function of its own.
    #[inline(never)]
    fn refill_gathered<const N: usize, G: Grammar, W: Weighing<Value = S>>(
        &mut self,
        grammar: &G,
        weighing: &W,
        entries: &Entries,
        k: usize,
    )
        requires room { cells.Room (G.meaning grammar.now).nonterminals (length entries.now.list.items) (length self.old.cells.now) }
        requires entry { k < (length entries.now.list.items) }
        requires few { N ≤ 256 }
        ensures filled { columns.Refilled S.ring (by (W.weight weighing.now)) (G.meaning grammar.now) (state entries.now).entries k ((length entries.now.list.items) + 1) self.old.cells.now self.new.cells.now }
        ensures long { length self.new.cells.now ≡ length self.old.cells.now }
        ensures named { self.new.cells.ghost_name ≡ self.old.cells.ghost_name }
    {
        let gathered: Gathered<N> = Gathered::of(grammar);
        self.refill_with(grammar, weighing, gathered.lend(), entries, k);
    }

    // Fills anew the spans in use that cover entry `k`. Room for a rule costs about as much as to ask for two; where so many are not asked for, each is asked for at each span.
    pub(crate) fn refill<G: Grammar, W: Weighing<Value = S>>(
        &mut self,
        grammar: &G,
        weighing: &W,
        entries: &Entries,
        k: usize,
    )
        requires room { cells.Room (G.meaning grammar.now).nonterminals (length entries.now.list.items) (length self.old.cells.now) }
        requires entry { k < (length entries.now.list.items) }
        ensures filled { columns.Refilled S.ring (by (W.weight weighing.now)) (G.meaning grammar.now) (state entries.now).entries k ((length entries.now.list.items) + 1) self.old.cells.now self.new.cells.now }
        ensures long { length self.new.cells.now ≡ length self.old.cells.now }
        ensures named { self.new.cells.ghost_name ≡ self.old.cells.ghost_name }
    {
        let spans = (k + 1).saturating_mul(entries.len() - k);
        let bound = grammar.bound();
        if spans < 4 || spans.saturating_mul(bound as usize) <= 2 * room(bound) {
            self.refill_with(grammar, weighing, AtHand::none(), entries, k);
        } else {
            match room(bound) {
                16 => self.refill_gathered::<16, G, W>(grammar, weighing, entries, k),
                64 => self.refill_gathered::<64, G, W>(grammar, weighing, entries, k),
                _ => self.refill_gathered::<256, G, W>(grammar, weighing, entries, k),
            }
        }
    }
}
