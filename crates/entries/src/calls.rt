// The calls: each is tested in order, and does what it does where no test applies.
ghost use Rattle.std.specs.Prelude.{◌≡◌, ℕ, ◌<◌, true, false, not, [], ◌∷◌, length, Ok, MatchResult, OnOk, ◌==◌};
ghost use Rattle.entries.specs.Model.{Terms, terms, test, verdict, entry_tests, replace_tests, Admits, Added, Did, Front, Fields, plain};
ghost use Rattle.entries.specs.declared.call.Call.{Call};

use crate::admission::{is_full, proper_entry};
use crate::call::Call;
use crate::entry::Entry;
use crate::list::Entries;
use crate::trial::Trial;
use grammar::grammar::Grammar;
use grammar::refusal::Refusal;

impl Entries {
    // Refuses a change while a trial is open.
    fn closed(&self) -> Result<(), Refusal>
        ensures { result ≡ verdict (test self.now.trial Refusal.TrialOpen ∷ []) }
    {
        if self.trial {
            return Err(Refusal::TrialOpen);
        }
        Ok(())
    }

    // Refuses a grammar with another number of nonterminals, and a change while a trial is open.
    fn open_to<G: Grammar>(&self, grammar: &G) -> Result<(), Refusal>
        ensures { result ≡ verdict (test (not ((G.meaning grammar.now).nonterminals == self.now.nonterminals)) Refusal.OtherGrammar ∷ test self.now.trial Refusal.TrialOpen ∷ []) }
    {
        if grammar.nonterminals() != self.nonterminals {
            return Err(Refusal::OtherGrammar);
        }
        self.closed()
    }

    // The bits as an entry that may be added.
    fn admit<G: Grammar>(&self, grammar: &G, slots: usize, bits: u32) -> Result<Entry, Refusal>
        ensures { Admits (verdict (entry_tests (terms (G.meaning grammar.now) self.now.nonterminals slots) (length self.now.list.items) self.now.trial bits)) bits result }
    {
        self.open_to(grammar)?;
        let entry = proper_entry(bits, grammar.codes())?;
        if is_full(self.list.len(), grammar.nonterminals(), slots) {
            return Err(Refusal::NoRoom);
        }
        Ok(entry)
    }

    // The bits as an entry that may take the place of entry `k`.
    fn admit_at<G: Grammar>(&self, grammar: &G, k: usize, bits: u32) -> Result<Entry, Refusal>
        ensures admits { (slots : ℕ) → Admits (verdict (replace_tests (terms (G.meaning grammar.now) self.now.nonterminals slots) (length self.now.list.items) self.now.trial k bits)) bits result }
        ensures inside { OnOk result (((G.meaning grammar.now).nonterminals ≡ self.now.nonterminals) × (k < (length self.now.list.items))) }
    {
        self.open_to(grammar)?;
        if k >= self.list.len() {
            return Err(Refusal::NoEntry);
        }
        proper_entry(bits, grammar.codes())
    }

    // Adds an entry at the end, and answers it.
    pub fn append<G: Grammar>(
        &mut self,
        grammar: &G,
        slots: usize,
        bits: u32,
    ) -> Result<Entry, Refusal>
        ensures did { Did (terms (G.meaning grammar.now) self.old.nonterminals slots) self.old (Call.Append bits) (plain result) self.new }
        ensures added { MatchResult result (Added (G.meaning grammar.now) self.old.nonterminals slots (length self.old.list.items) bits) (λ _. self.new ≡ self.old) }
    {
        let entry = self.admit(grammar, slots, bits)?;
        self.push(entry);
        Ok(entry)
    }

    // Changes the entry at the place `k`.
    pub fn replace<G: Grammar>(&mut self, grammar: &G, k: usize, bits: u32) -> Result<(), Refusal>
        ensures did { (slots : ℕ) → Did (terms (G.meaning grammar.now) self.old.nonterminals slots) self.old (Call.Replace k bits) result self.new }
        ensures inside { MatchResult result (λ _. ((G.meaning grammar.now).nonterminals ≡ self.old.nonterminals) × (k < (length self.old.list.items))) (λ _. self.new ≡ self.old) }
    {
        let entry = self.admit_at(grammar, k, bits)?;
        self.put(k, entry);
        Ok(())
    }

    // Removes the last entry.
    #[tactic(auto, using(crate::proofs::Fronts::same_front))]
    pub fn take_back(&mut self) -> Result<(), Refusal>
        ensures did { (t : Terms) → Did t self.old Call.TakeBack result self.new }
        ensures front { Front self.old self.new }
    {
        self.closed()?;
        if self.list.len() == 0 {
            return Err(Refusal::NoEntry);
        }
        self.pop();
        Ok(())
    }

    // Sets the mark, and hands out the token that keep or withdraw takes back.
    pub fn open_trial(&mut self) -> Trial
        ensures marked { Fields self.new self.old.list.items true self.old.nonterminals }
        ensures list { self.new.list ≡ self.old.list }
        ensures unspent { result.spent ≡ false }
    {
        self.mark(true);
        Trial::open()
    }

    // Spends the token and clears the mark.
    #[tactic(auto, using(crate::proofs::Fronts::same_front))]
    pub fn keep(&mut self, trial: Trial) -> Result<(), Refusal>
        ensures did { (t : Terms) → Did t self.old Call.Keep result self.new }
        ensures front { Front self.old self.new }
    {
        trial.spend();
        if !self.trial {
            return Err(Refusal::NoTrial);
        }
        self.mark(false);
        Ok(())
    }

    // Spends the token, clears the mark and removes the last entry.
    pub fn withdraw(&mut self, trial: Trial) -> Result<(), Refusal>
        ensures did { (t : Terms) → Did t self.old Call.Withdraw result self.new }
        ensures front { Front self.old self.new }
    {
        self.keep(trial)?;
        self.pop();
        Ok(())
    }

    // Empties the list and clears the mark.
    pub fn clear(&mut self)
        ensures did { (t : Terms) → Did t self.old Call.Clear (Ok tt) self.new }
        ensures front { Front self.old self.new }
    {
        self.empty();
    }
}
