// From the bytes of a job to its answer.
ghost use Rattle.std.specs.Prelude.{◌≤◌, [], ◌∷◌, length};
ghost use Rattle.commands.specs.declared.command.Command.{Command};
ghost use Rattle.commands.specs.Readers.{HasRead};
ghost use Rattle.job.specs.Outcomes.{OneOutcome};
ghost use Rattle.job.specs.Loading.{input_of};
ghost use Rattle.job.specs.Answers.{Answers};

use crate::appending::appends;
use crate::description::Description;
use crate::loading::load;
use crate::stacking::stack_report;
use answer::report::Report;
use commands::command::Command;
use commands::fault::Fault;
use commands::reader::Reader;
use grammar::rule::Rule;
use table::draft::Draft;

// How many rows the table has.
const ROWS: usize = 256;

// What the entries of a job come to, or its first fault.
#[tactic(auto, using(crate::proofs::Agreeing::one_outcome))]
pub fn answer(input: &[u8]) -> Result<Report, Fault>
    ensures is { Answers input.now result }
    ensures one { OneOutcome input.now }
{
    let mut reader = Reader::new(input);
    let Some(
        Command::Grammar {
            nonterminals,
            codes,
            start,
        },
    ) = reader.next()?
    else {
        unreachable!()
    };
    answer_with(
        reader,
        u32::from(nonterminals),
        u32::from(codes),
        u32::from(start),
    )
}

// What is answered to a job that has declared its grammar.
fn answer_with(
    mut reader: Reader<'_>,
    nonterminals: u32,
    codes: u32,
    start: u32,
) -> Result<Report, Fault>
    requires short { length (input_of reader) ≤ 4096 }
    requires read { HasRead reader (Command.Grammar nonterminals codes start ∷ []) }
    ensures { Answers (input_of reader.entry) result }
{
    let mut rows = [Rule::BLANK; ROWS];
    let draft = Draft::new(&mut rows, nonterminals, codes, start);
    if let Some(refusal) = draft.refusal() {
        return Err(Fault { refusal, place: 0 });
    }
    let mut description = Description::new(draft);
    load(&mut reader, &mut description)?;
    let Description {
        draft,
        bans,
        automaton,
        readings,
        entries,
    } = description;
    let calls = appends(entries.as_slice());
    Ok(stack_report(draft.seal(), bans, automaton, readings, calls.as_slice()))
}
