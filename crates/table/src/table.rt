// A table grammar that is sealed: row i is rule i, and it can be read.
ghost use Rattle.std.specs.Prelude.{◌≡◌, ◌≤◌, true, length, slice_get};
ghost use Rattle.table.specs.Tables.{all_fine};

use crate::shape::Shape;
use grammar::grammar::Grammar;
use grammar::rule::Rule;

#[derive(Drop)]
pub struct Table<'a> {
    pub(crate) shape: Shape,
    pub(crate) rows: &'a [Rule],
    ghost short: { length rows.now ≤ 256 },
    ghost fine: { all_fine shape.nonterminals shape.codes 0 rows.now ≡ true },
}

impl Table<'_> {
    // How many rows there are.
    fn count(&self) -> u32
        ensures { result ≡ length self.now.rows.now }
    {
        self.rows.len() as u32
    }

    // The rule in a row, or none from the count on.
    fn row(&self, number: u32) -> Option<Rule>
        ensures { result ≡ slice_get self.now.rows.now number }
    {
        self.rows.get(number as usize).copied()
    }
}

impl<'a> Grammar for Table<'a> {
    ghost use Rattle.table.specs.Drafts.{grammar_of};
    ghost use Rattle.table.specs.Laws.Shown.{table_shown};

    ghost meaning = { grammar_of };

    ghost shown = { λ g. table_shown g.shape.nonterminals g.shape.codes g.shape.start g.rows.now g.shape.some g.shape.few g.shape.readable g.shape.coded g.shape.begins g.short g.fine };

    fn nonterminals(&self) -> u32 {
        self.shape.nonterminals
    }

    fn codes(&self) -> u32 {
        self.shape.codes
    }

    fn bound(&self) -> u32 {
        self.count()
    }

    fn rule(&self, number: u32) -> Option<Rule> {
        self.row(number)
    }

    fn is_start(&self, nonterminal: u32) -> bool {
        nonterminal == self.shape.start
    }
}
