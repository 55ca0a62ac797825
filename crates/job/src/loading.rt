// Reading what a job describes.
ghost use Rattle.std.specs.Prelude.{◌≡◌, Ok, Err, MatchResult};
ghost use Rattle.job.specs.Held.{held};
ghost use Rattle.job.specs.Loading.{input_of, Loading, Loaded};

use crate::description::Description;
use commands::fault::Fault;
use commands::reader::Reader;
use grammar::refusal::Refusal;

// Reads the commands up to the end, or up to the first fault.
pub(crate) fn load(reader: &mut Reader<'_>, description: &mut Description<'_>) -> Result<(), Fault>
    requires { Loading reader.old (held description.old) }
    ensures { Loaded (input_of reader.old) (held description.new) result }
{
    loop {
        let place = reader.place();
        let Some(command) = reader.next()? else {
            return Ok(());
        };
        faulted_at(place, description.take(command))?;
    }
}

// What a command at the place is answered: where it is refused, the fault there.
fn faulted_at(place: usize, answer: Result<(), Refusal>) -> Result<(), Fault>
    ensures { MatchResult answer (λ _. result ≡ Ok tt) (λ why. result ≡ Err (record { refusal = why; place = place })) }
{
    answer.map_err(|refusal| Fault { refusal, place })
}
