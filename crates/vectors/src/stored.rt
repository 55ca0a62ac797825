// The stored jobs, and the answers that another program gave them.
ghost use Rattle.std.specs.Prelude.{◌≡◌, ◌+◌, ◌≤◌, true, length, IfOk, vec_len};
ghost use Rattle.vectors.specs.Jobs.{line_feeds, line_feed, unbarred, Holds, Right, AllRight};

use crate::hex::bytes;
use crate::misread::Misread;
use job::responding::respond;
use std::alloc::{AllocError, Global};
use std::iter;

// A job, and the text of the stored answer.
#[derive(Drop)]
pub(crate) struct Stored {
    job: Vec<u8>,
    answer: Vec<u8>,
}

impl Stored {
    // What a line holds: the bytes of the job as hexadecimal digits, a tab, and the lines of the answer with a bar between them.
    #[tactic(auto, using(std::proofs::lemmas::Str::Pattern::split_parts))]
    fn read(heap: Global, line: &str) -> Result<Stored, Misread>
        ensures { IfOk result (λ stored. Holds line.now stored) }
    {
        let Some((job, answer)) = line.split_once('\t') else {
            return Err(Misread::NoTab);
        };
        Ok(Stored {
            job: bytes(heap, job)?,
            answer: lines(heap, answer)?,
        })
    }

    // Whether the library answers the job with the stored text.
    fn agrees(&self, heap: Global) -> Result<bool, AllocError>
        ensures { IfOk result (λ b. b ≡ true → Right self.now) }
    {
        let said = respond(heap, self.job.as_slice())?;
        Ok(said.as_bytes() == self.answer.as_slice())
    }
}

// A line feed for a bar.
fn unbar(byte: u8) -> u8
    ensures { result ≡ line_feed byte }
{
    if byte == b'|' { b'\n' } else { byte }
}

// The text of lines that are written with a bar between them.
fn lines(heap: Global, barred: &str) -> Result<Vec<u8>, AllocError>
    ensures { IfOk result (λ bytes. bytes.items ≡ unbarred barred.now) }
{
    barred
        .as_bytes()
        .iter()
        .map(|byte| unbar(*byte))
        .chain(iter::once(b'\n'))
        .collect(heap)
}

// The stored jobs of a text, one to a line.
pub(crate) fn load(heap: Global, text: &str) -> Result<Vec<Stored>, Misread>
    ensures { IfOk result (λ all. (line_feeds text.now ≤ vec_len all) × (vec_len all ≤ line_feeds text.now + 1)) }
{
    text.lines()
        .map(|line| Stored::read(heap, line))
        .try_collect(heap)
}

// The numbers of the jobs that are answered otherwise than stored, counted from 0.
#[tactic(auto, using(crate::proofs::More::right_more))]
pub(crate) fn differing(heap: Global, all: &[Stored]) -> Result<Vec<usize>, AllocError>
    ensures few { IfOk result (λ numbers. vec_len numbers ≤ length all.now) }
    ensures right { IfOk result (λ numbers. vec_len numbers ≡ 0 → AllRight all.now) }
{
    let mut numbers = Vec::new(heap);
    // a loop, and no filter: the library may run out of memory at each job
    for (number, stored) in all.iter().enumerate() {
        if !stored.agrees(heap)? {
            numbers.push(number)?;
        }
    }
    Ok(numbers)
}
