// What each command adds to a description.
ghost use Rattle.std.specs.Prelude.{◌≡◌, ◌≤◌, [], Ok, None, OnErr};
ghost use Rattle.grammar.specs.Refusals.{accepted_unless};
ghost use Rattle.automata.specs.Making.{table_made};
ghost use Rattle.table.specs.Drafts.{contents};
ghost use Rattle.commands.specs.declared.command.Command.{Command};
ghost use Rattle.job.specs.Describing.{Later, Taking, rule_refusal, with_rule, nonterminals_of, codes_of};
ghost use Rattle.job.specs.Held.{held};

use crate::description::Description;
use crate::entering::check_entry;
use automata::automaton::Automaton;
use automata::table::TableAutomaton;
use commands::command::Command;
use grammar::refusal::Refusal;
use grammar::rule::Expansion;
use layers::bans::Bans;
use layers::readings::Readings;
use lists::list::List;
use table::draft::Draft;

impl<'a> Description<'a> {
    // What a job has described that has declared its grammar: an automaton of one state, which accepts, and nothing else.
    pub(crate) fn new(draft: Draft<'a>) -> Description<'a>
        ensures { held result ≡ record { table = contents draft.entry; bans = []; machine = table_made 1 (contents draft.entry).codes 0 1; recorder = None; entries = [] } }
    {
        let (automaton, _) = TableAutomaton::new(1, draft.codes(), 0, 1);
        Description {
            draft,
            bans: Bans::none(),
            automaton,
            readings: None,
            entries: List::new(0),
        }
    }

    // Takes one command, unless it is refused.
    pub(crate) fn take(&mut self, command: Command) -> Result<(), Refusal>
        requires { Later command }
        ensures { Taking (held self.old) command result (held self.new) }
    {
        match command {
            Command::Pair {
                lhs,
                left,
                right,
                cost,
            } => {
                let (left, right) = (u32::from(left), u32::from(right));
                self.take_rule(lhs, Expansion::Pair { left, right }, cost)
            }
            Command::Leaf { lhs, code, cost } => {
                self.take_rule(lhs, Expansion::Leaf { code }, cost)
            }
            Command::Ban { number } => self.bans.add(u32::from(number)),
            Command::Automaton {
                states,
                codes,
                start,
                accepting,
            } => self.take_automaton(states, codes, start, accepting),
            Command::Step { from, code, to } => self
                .automaton
                .write(u32::from(from), code, u32::from(to)),
            Command::Renaming { count } => self.take_renaming(count),
            Command::Reading { recorder, code } => self.take_reading(recorder, code),
            Command::Entry { codes } => self.take_entry(codes),
            Command::End => Ok(()),
            Command::Grammar { .. } => unreachable!(),
        }
    }

    // Takes a rule into the draft.
    fn take_rule(&mut self, lhs: u8, expansion: Expansion, cost: u16) -> Result<(), Refusal>
        ensures refusal { result ≡ accepted_unless (rule_refusal (held self.old).table lhs expansion) }
        ensures after { result ≡ Ok tt → held self.new ≡ record (held self.old) { table = with_rule (held self.old).table lhs expansion cost } }
        ensures same { OnErr result (held self.new ≡ held self.old) }
    {
        self.draft.add(u32::from(lhs), expansion, cost)?;
        Ok(())
    }

    // Takes an automaton, which has at least as many codes as the grammar.
    fn take_automaton(
        &mut self,
        states: u8,
        codes: u8,
        start: u8,
        accepting: u8,
    ) -> Result<(), Refusal>
        ensures { Taking (held self.old) (Command.Automaton states codes start accepting) result (held self.new) }
    {
        let (automaton, refused) = TableAutomaton::new(
            u32::from(states),
            u32::from(codes),
            u32::from(start),
            accepting,
        );
        if let Some(refusal) = refused {
            return Err(refusal);
        }
        if u32::from(codes) < self.draft.codes() {
            return Err(Refusal::FewerCodes);
        }
        self.automaton = automaton;
        Ok(())
    }

    // Takes a renaming, which reads nothing yet.
    fn take_renaming(&mut self, count: u8) -> Result<(), Refusal>
        ensures { Taking (held self.old) (Command.Renaming count) result (held self.new) }
    {
        let (readings, refused) = Readings::new(u32::from(count));
        if let Some(refusal) = refused {
            return Err(refusal);
        }
        self.readings = Some(readings);
        Ok(())
    }

    // Takes a reading of a recorder code.
    fn take_reading(&mut self, recorder: u8, code: u8) -> Result<(), Refusal>
        ensures { Taking (held self.old) (Command.Reading recorder code) result (held self.new) }
    {
        let Some(readings) = &mut self.readings else {
            return Ok(());
        };
        readings.read_as(recorder, code)
    }

    // Takes an entry.
    fn take_entry(&mut self, codes: u32) -> Result<(), Refusal>
        ensures { Taking (held self.old) (Command.Entry codes) result (held self.new) }
    {
        check_entry(self.nonterminals(), self.codes(), self.entries.len(), codes)?;
        self.entries.push(codes).map_err(|_| Refusal::NoRoom)
    }

    // How many nonterminals the job's grammar has.
    fn nonterminals(&self) -> u32
        ensures { result ≡ nonterminals_of (held self.now) }
    {
        let states = self.automaton.states();
        self.draft.nonterminals() * states * states
    }

    // How many codes the job's grammar has.
    fn codes(&self) -> u32
        ensures { result ≡ codes_of (held self.now) }
    {
        self.readings
            .map_or(self.draft.codes(), |readings| readings.count())
    }
}
