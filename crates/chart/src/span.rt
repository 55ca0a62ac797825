// A span of entries, and which slots its cells are in.
ghost use Rattle.std.specs.Prelude.{◌≡◌, ◌+◌, ◌<◌, ◌≤◌, ◌==◌};
ghost use Rattle.chart.specs.Cells.{place};

// The entries from `begin` to before `end`, with so many cells: one for each nonterminal.
#[derive(Clone, Copy)]
pub(crate) struct Span {
    pub(crate) begin: usize,
    pub(crate) end: usize,
    pub(crate) cells: usize,
    ghost some: { begin < end },
    ghost few: { end ≤ 64 },
    ghost narrow: { cells ≤ 4096 },
}

impl Span {
    // The slot of the cell of `a`. As many spans end before `end` as the first half line says, which the entries work out too.
    pub(crate) fn slot(self, a: usize) -> usize
        requires { a < self.cells }
        ensures { result ≡ place self.cells self.begin self.end a }
    {
        (self.end * (self.end - 1) / 2 + self.begin) * self.cells + a
    }

    // The first entry of the span.
    pub(crate) fn front(self) -> Span
        ensures { (result.begin ≡ self.begin) × (result.end ≡ self.begin + 1) × (result.cells ≡ self.cells) }
    {
        Span {
            begin: self.begin,
            end: self.begin + 1,
            cells: self.cells,
        }
    }

    // All of its entries but the first, of which it has several.
    pub(crate) fn back(self) -> Span
        requires { self.begin + 1 < self.end }
        ensures { (result.begin ≡ self.begin + 1) × (result.end ≡ self.end) × (result.cells ≡ self.cells) }
    {
        Span {
            begin: self.begin + 1,
            end: self.end,
            cells: self.cells,
        }
    }

    // Whether it is one entry.
    pub(crate) fn is_single(self) -> bool
        ensures { result ≡ (self.begin + 1 == self.end) }
    {
        self.begin + 1 == self.end
    }
}
