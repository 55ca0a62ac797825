// The first fault of a job: why it was refused, and the place of that in the job, counted from 0.
ghost use Rattle.std.specs.Prelude.{Some};
ghost use Rattle.commands.specs.Faults.{fault_text};

use grammar::refusal::Refusal;
use std::error::Error;
use std::fmt;

#[derive(Clone, Copy, PartialEq, Eq, Debug)]
pub struct Fault {
    pub refusal: Refusal,
    pub place: usize,
}

// The number of the refusal, and its place.
impl fmt::Display for Fault {
    ghost output = { λ f. Some (fault_text f) };

    fn fmt<W: fmt::Write>(&self, f: &mut fmt::Formatter<W>) -> fmt::Result {
        write!(f, "fault {} {}", self.refusal.number(), self.place)
    }
}

impl Error for Fault {}
