// Why a call was refused. `number` gives the number by which users know the refusal.
ghost use Rattle.std.specs.Prelude.{◌≡◌};
ghost use Rattle.grammar.specs.Refusals.{number as number_of};

#[derive(Clone, Copy, PartialEq, Eq, Debug)]
pub enum Refusal {
    // a table grammar's count or start is out of range
    GrammarOutOfRange = 1,
    // a rule names a nonterminal or a code that is not declared
    Undeclared = 2,
    // there is no row for another rule, or it would be the 257th
    NoRow = 3,
    // the automaton has fewer codes than the grammar
    FewerCodes = 4,
    // the layer would have more than 4,096 nonterminals or a rule bound above 16,777,216
    TooLarge = 5,
    // a 17th ban
    TooManyBans = 6,
    // the entry is empty, or has a code that the grammar lacks
    BadEntry = 7,
    // a trial is open
    TrialOpen = 8,
    // a 65th entry, or too few slots for the spans of the new length
    NoRoom = 9,
    // there is no such entry
    NoEntry = 10,
    // no trial is open
    NoTrial = 11,
    // the grammar shown has another number of nonterminals than the chart
    OtherGrammar = 12,
    // there is no derivation: the total is "none"
    NoDerivation = 13,
    // fewer records than the tree has nodes
    FewRecords = 14,
    // a number of an automaton or a renaming is out of range
    NumberOutOfRange = 15,
    // the job breaks the rules for jobs
    BadJob = 16,
}

impl Refusal {
    // The number of the refusal, 1 to 16.
    pub fn number(self) -> u8
        ensures { result ≡ number_of self }
    {
        self as u8
    }
}
