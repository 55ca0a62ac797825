// Sums over cuts that are worked out once for a span: the rules to the same pair share one.
ghost use Rattle.std.specs.Prelude.{◌≡◌, ◌<◌, IfSome};
ghost use Rattle.chart.specs.Cells as cells;
ghost use Rattle.chart.specs.Sums.{KnownAt, Noted};

use super::cells::Cells;
use super::span::Span;
use semiring::semiring::Semiring;

// The pair of nonterminals of which a sum is.
#[derive(Clone, Copy, PartialEq, Eq)]
pub(crate) struct Key {
    pub(crate) left: u32,
    pub(crate) right: u32,
}

impl Key {
    // Its place among so many sums. Where their number is a power of two each place may come.
    #[tactic(auto, using(std::proofs::lemmas::Nat::and_le_r))]
    fn place(self, places: usize) -> usize
        requires { 0 < places }
        ensures { result < places }
    {
        self.left.wrapping_mul(8).wrapping_add(self.right) as usize & (places - 1)
    }
}

// The sum of a key at the span that begins there and ends where the column does. The places are looked up by what `Key::place` says and not by a map, since nothing is allocated.
#[derive(Clone, Copy)]
pub(crate) struct Sum<S> {
    pub(crate) key: Key,
    pub(crate) begin: usize,
    pub(crate) value: S,
}

// The sum with a cut more: the left part times the right part.
fn with_cut<S: Semiring>(sum: S, left: S, right: S) -> S
    ensures { result ≡ S.ring.plus sum (S.ring.times left right) }
{
    sum.add_product(left, right)
}

impl<'a, S: Semiring> Cells<'a, S> {
    // The sum over the cuts of the span of the left cell times the right cell, with running slots of the two. One entry has no cut.
    fn cut_sum(&self, left: usize, right: usize) -> S
        requires { (left < self.now.span.cells) × (right < self.now.span.cells) }
        ensures { result ≡ cells.cut_sum S.ring (cells.cell_at S.ring self.now.span.cells self.now.slots.now) self.now.span.begin self.now.span.end left right }
    {
        let Span { begin, end, cells } = self.span;
        let mut sum = S::zero();
        if self.span.is_single() {
            return sum;
        }
        let mut l = self.span.front().slot(left);
        let mut r = self.span.back().slot(right);
        for cut in begin + 1..end {
            sum = with_cut(sum, self.slots[l], self.slots[r]);
            l += cut * cells;
            r += cells;
        }
        sum
    }

    // The sum of a key, if it is noted at the key's place.
    #[tactic(auto, using(crate::proofs::Noting::noted_each))]
    fn found_sum(&self, sums: &[Sum<S>], key: Key) -> Option<S>
        requires names { (key.left < self.now.span.cells) × (key.right < self.now.span.cells) }
        requires known { Noted S.ring self.now.span self.now.slots.now sums.now }
        ensures { IfSome result (KnownAt S.ring self.now.span self.now.slots.now key) }
    {
        if sums.is_empty() {
            return None;
        }
        let sum = sums[key.place(sums.len())];
        if sum.key == key && sum.begin == self.span.begin {
            Some(sum.value)
        } else {
            None
        }
    }

    // Notes the sum of a key at the key's place, if there is one.
    fn note_sum(&self, sums: &mut [Sum<S>], key: Key, value: S)
        requires known { Noted S.ring self.now.span self.now.slots.now sums.old }
        requires right { KnownAt S.ring self.now.span self.now.slots.now key value }
        ensures { Noted S.ring self.now.span self.now.slots.now sums.new }
    {
        if !sums.is_empty() {
            let at = key.place(sums.len());
            let begin = self.span.begin;
            sums[at] = Sum { key, begin, value };
        }
    }

    // The sum over the cuts of the span: the one that is noted for this pair and span, or else it is worked out, and noted.
    pub(crate) fn known_sum(&self, sums: &mut [Sum<S>], key: Key) -> S
        requires names { (key.left < self.now.span.cells) × (key.right < self.now.span.cells) }
        requires known { Noted S.ring self.now.span self.now.slots.now sums.old }
        ensures is { result ≡ cells.cut_sum S.ring (cells.cell_at S.ring self.now.span.cells self.now.slots.now) self.now.span.begin self.now.span.end key.left key.right }
        ensures known { Noted S.ring self.now.span self.now.slots.now sums.new }
    {
        if let Some(sum) = self.found_sum(sums, key) {
            return sum;
        }
        let sum = self.cut_sum(key.left as usize, key.right as usize);
        self.note_sum(sums, key, sum);
        sum
    }
}
