// A table grammar in the making: the first `count` of the rows that the caller lends hold the rules so far.
ghost use Rattle.std.specs.Prelude.{◌≡◌, ◌+◌, ◌<◌, ◌≤◌, true, length, take, slice_set};
ghost use Rattle.table.specs.Tables.{numbered, all_fine};

use crate::shape::Shape;
use crate::table::Table;
use grammar::refusal::Refusal;
use grammar::rule::{Expansion, Rule};

// The rows and their count stand beside one another: the caller lends the memory.
#[derive(Drop)]
pub struct Draft<'a> {
    // why the making was refused, if it was: kept here, since a refused draft is the smallest draft, and a `Result` that holds a draft gets no generated proof
    pub(crate) refusal: Option<Refusal>,
    pub(crate) shape: Shape,
    pub(crate) count: usize,
    pub(crate) rows: &'a mut [Rule],
    ghost room: { count ≤ length rows.now },
    ghost short: { count ≤ 256 },
    ghost fine: { all_fine shape.nonterminals shape.codes 0 (take count rows.now) ≡ true },
}

impl<'a> Draft<'a> {
    ghost use Rattle.table.specs.Drafts.{contents, new_draft, out_of_range, lent_rows, answer, with_added, written, sealed, grammar_of};

    // A draft without rules over the rows; out of range, the smallest draft, which keeps the refusal and has no rows.
    pub fn new(rows: &'a mut [Rule], nonterminals: u32, codes: u32, start: u32) -> Draft<'a>
        ensures draft { contents result ≡ new_draft rows.old nonterminals codes start }
        ensures rows { result.rows.now ≡ lent_rows (out_of_range nonterminals codes start) rows.old }
    {
        match Shape::new(nonterminals, codes, start) {
            Ok(shape) => Draft {
                refusal: None,
                shape,
                count: 0,
                rows,
            },
            Err(why) => Draft {
                refusal: Some(why),
                shape: Shape::SMALLEST,
                count: 0,
                rows: &mut rows[0..0],
            },
        }
    }

    // Why the making of the draft was refused, or none.
    pub fn refusal(&self) -> Option<Refusal>
        ensures { result ≡ (contents self.now).refusal }
    {
        self.refusal
    }

    // How many nonterminals the draft declares.
    pub fn nonterminals(&self) -> u32
        ensures { result ≡ (contents self.now).nonterminals }
    {
        self.shape.nonterminals
    }

    // How many codes the draft declares.
    pub fn codes(&self) -> u32
        ensures { result ≡ (contents self.now).codes }
    {
        self.shape.codes
    }

    // Adds a rule that rewrites `lhs`, and answers its number.
    pub fn add(&mut self, lhs: u32, expansion: Expansion, cost: u16) -> Result<u32, Refusal>
        ensures number { result ≡ answer (contents self.old) lhs expansion }
        ensures draft { contents self.new ≡ with_added (contents self.old) (record { lhs = lhs; expansion = expansion; cost = cost }) result }
        ensures rows { self.new.rows.now ≡ written self.old.rows.now (record { lhs = lhs; expansion = expansion; cost = cost }) result }
        ensures lent { self.new.rows.ghost_name ≡ self.old.rows.ghost_name }
    {
        let number = self.number_for(lhs, expansion)?;
        self.write(rule_at(number, lhs, expansion, cost));
        Ok(number)
    }

    // The number that a rule would get, or why it would be refused.
    #[tactic(auto, using(crate::proofs::Adding::count_is))]
    fn number_for(&self, lhs: u32, expansion: Expansion) -> Result<u32, Refusal>
        ensures { result ≡ answer (contents self.now) lhs expansion }
    {
        if !self.shape.declares(lhs, expansion) {
            Err(Refusal::Undeclared)
        } else if self.count < self.rows.len() && self.count < 256 {
            Ok(self.count as u32)
        } else {
            Err(Refusal::NoRow)
        }
    }

    // Writes a rule that keeps the rows fine into the next row.
    fn write(&mut self, rule: Rule)
        requires inside { self.old.count < length self.old.rows.now }
        requires few { self.old.count < 256 }
        requires fine { all_fine self.old.shape.nonterminals self.old.shape.codes 0 (take (self.old.count + 1) (slice_set self.old.rows.now self.old.count rule)) ≡ true }
        ensures same { (self.new.refusal ≡ self.old.refusal) × (self.new.shape ≡ self.old.shape) }
        ensures count { self.new.count ≡ self.old.count + 1 }
        ensures rows { self.new.rows.now ≡ slice_set self.old.rows.now self.old.count rule }
        ensures lent { self.new.rows.ghost_name ≡ self.old.rows.ghost_name }
    {
        self.rows[self.count] = rule;
        self.count += 1;
    }

    // The grammar of the rules added. The draft is spent.
    pub fn seal(self) -> Table<'a>
        ensures { grammar_of result ≡ sealed (contents self.entry) }
    {
        let Draft {
            refusal: _,
            shape,
            count,
            rows,
        } = self;
        Table {
            shape,
            rows: &rows[0..count],
        }
    }
}

// The rule with a number, which is also its bottom number.
fn rule_at(number: u32, lhs: u32, expansion: Expansion, cost: u16) -> Rule
    ensures { result ≡ numbered number (record { lhs = lhs; expansion = expansion; cost = cost }) }
{
    Rule {
        lhs,
        expansion,
        cost,
        bottom: number,
    }
}
