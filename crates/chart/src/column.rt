// A column that is filled: the spans that end where the widest one does, of which those that begin before `upto` are filled.
ghost use Rattle.std.specs.Prelude.{◌≡◌, ◌≤◌};

use super::filling::Filling;
use grammar::grammar::Grammar;
use grammar::weighing::Weighing;

#[derive(Drop)]
pub(crate) struct Column<'a, G: Grammar, W: Weighing> {
    pub(crate) widest: Filling<'a, G, W>,
    pub(crate) upto: usize,
    ghost first: { widest.span.begin ≡ 0 },
    ghost part: { upto ≤ widest.span.end },
}
