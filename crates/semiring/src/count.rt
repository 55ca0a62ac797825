ghost use Rattle.std.specs.Prelude.{◌^◌, ◌<◌};

// A number of derivations; 2^64 - 1 stands for that many or more.
#[derive(Clone, Copy, PartialEq, Eq, Debug)]
pub struct Count {
    pub value: u64,
    ghost fits: { value < 2 ^ 64 },
}
