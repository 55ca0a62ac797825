// Reading a job command by command.
ghost use Rattle.std.specs.Prelude.{◌≡◌, List, []};
ghost use Rattle.commands.specs.declared.command.Command.{Command};
ghost use Rattle.commands.specs.declared.stage.Stage.TheVariants.{Declaring};
ghost use Rattle.grammar.specs.declared.refusal.Refusal.TheVariants.{BadJob};
ghost use Rattle.commands.specs.Readers.{HasRead, Steps, Reads, is_finished};

use crate::command::Command;
use crate::fault::Fault;
use crate::reader::Reader;
use crate::stage::Stage;
use grammar::refusal::Refusal;

// The most bytes that a job has.
const LONGEST: usize = 4096;

impl<'a> Reader<'a> {
    // A reader at the start of the input.
    pub fn new(input: &'a [u8]) -> Reader<'a>
        ensures start { (result.input ≡ input.entry) × (result.place ≡ 0) × (result.stage ≡ Declaring) }
        ensures read { HasRead result [] }
    {
        Reader {
            input,
            place: 0,
            stage: Stage::Declaring,
        }
    }

    // The next command, none at the end of the job, or the fault that the job breaks the rules for jobs.
    pub fn next(&mut self) -> Result<Option<Command>, Fault>
        ensures step { Steps self.old self.new result }
        ensures read { (before : List Command) → HasRead self.old before → Reads self.old self.new before result }
    {
        let input = self.input;
        if input.len() > LONGEST {
            return Err(Fault {
                refusal: Refusal::BadJob,
                place: LONGEST,
            });
        }
        if self.finished() {
            return Ok(None);
        }
        let Some((command, rest)) = Command::first(&input[self.place..]) else {
            return Err(self.fault());
        };
        let Some(stage) = self.stage.after(command) else {
            return Err(self.fault());
        };
        self.place = input.len() - rest.len();
        self.stage = stage;
        Ok(Some(command))
    }

    // The fault that the job breaks the rules here.
    fn fault(&self) -> Fault
        ensures { result ≡ record { refusal = BadJob; place = self.now.place } }
    {
        Fault {
            refusal: Refusal::BadJob,
            place: self.place,
        }
    }

    // Whether the end was read and nothing follows it.
    fn finished(&self) -> bool
        ensures { result ≡ is_finished self.now }
    {
        self.stage == Stage::Ended && self.place == self.input.len()
    }
}
