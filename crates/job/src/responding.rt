// From the bytes of a job to the text that is printed.
ghost use Rattle.std.specs.Prelude.{IfOk, string_bytes};
ghost use Rattle.job.specs.Answers.{Says};
ghost use Rattle.job.specs.Outcomes.{OneOutcome};

use crate::answering::answer;
use answer::text::text;
use std::alloc::{AllocError, Global};

// The text of the answer to a job.
pub fn respond(heap: Global, input: &[u8]) -> Result<String, AllocError>
    ensures says { IfOk result (λ s. Says input.now (string_bytes s)) }
    ensures one { OneOutcome input.now }
{
    text(heap, &answer(input))
}
