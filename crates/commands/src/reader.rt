// The reader of a job: the input, the place of the next command in it, and the stage that the job has come to. Both input and place are kept, since a fault names a place of the whole input.
ghost use Rattle.std.specs.Prelude.{◌≡◌, ◌≤◌, length};

use crate::stage::Stage;

#[derive(Drop)]
pub struct Reader<'a> {
    pub(crate) input: &'a [u8],
    pub(crate) place: usize,
    pub(crate) stage: Stage,
    ghost within: { place ≤ length input.now },
}

impl Reader<'_> {
    // The place of the next command's first byte.
    pub fn place(&self) -> usize
        ensures { result ≡ self.now.place }
    {
        self.place
    }
}
