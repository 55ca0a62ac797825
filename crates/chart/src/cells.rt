// The slots as the cells of a span and of the spans inside it.
ghost use Rattle.std.specs.Prelude.{◌≡◌, ◌<◌, ◌≤◌, length};
ghost use Rattle.chart.specs.Cells.{place, cell_at, Room};

use super::span::Span;
use semiring::semiring::Semiring;

#[derive(Drop)]
pub(crate) struct Cells<'a, S: Semiring> {
    pub(crate) slots: &'a [S],
    pub(crate) span: Span,
    ghost room: { Room span.cells span.end (length slots.now) },
}

impl<'a, S: Semiring> Cells<'a, S> {
    // The slot of the cell of `a`.
    pub(crate) fn place(&self, a: usize) -> usize
        requires { a < self.now.span.cells }
        ensures is { result ≡ place self.now.span.cells self.now.span.begin self.now.span.end a }
        ensures inside { result < length self.now.slots.now }
    {
        self.span.slot(a)
    }

    // The value of the cell of `a`.
    pub(crate) fn value(&self, a: usize) -> S
        requires { a < self.now.span.cells }
        ensures { result ≡ cell_at S.ring self.now.span.cells self.now.slots.now self.now.span.begin self.now.span.end a }
    {
        self.slots[self.place(a)]
    }

    // The value of the cell of `a` and a span inside this one.
    pub(crate) fn inner(&self, begin: usize, end: usize, a: usize) -> S
        requires span { (begin < end) × (end ≤ self.now.span.end) }
        requires named { a < self.now.span.cells }
        ensures { result ≡ cell_at S.ring self.now.span.cells self.now.slots.now begin end a }
    {
        let part = Cells {
            slots: self.slots,
            span: Span {
                begin,
                end,
                cells: self.span.cells,
            },
        };
        part.value(a)
    }
}
