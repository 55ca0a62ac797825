// Counting the commands of a job: every input is a job or breaks the rules at one place, and which of the two is told.
ghost use Rattle.commands.specs.Jobs.{OneOutcome};
ghost use Rattle.commands.specs.Readers.{Counted};

use crate::fault::Fault;
use crate::reader::Reader;

// How many commands a job has, or its fault.
#[tactic(auto, using(crate::proofs::Outcomes::one_outcome, crate::proofs::Turns::encodes_long))]
pub fn count_commands(input: &[u8]) -> Result<usize, Fault>
    ensures which { Counted input.now result }
    ensures one { OneOutcome input.now }
{
    let mut reader = Reader::new(input);
    let mut count: usize = 0;
    // a loop, and no chain: the reader is no iterator, since after a fault it answers the same fault at each call
    while reader.next()?.is_some() {
        count += 1;
    }
    Ok(count)
}
