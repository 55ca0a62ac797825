ghost use Rattle.std.specs.Prelude.{◌^◌, ◌<◌};

// The cost of a derivation; 2^32 - 1 is "none": there is no derivation.
#[derive(Clone, Copy, PartialEq, Eq, Debug)]
pub struct Cost {
    pub value: u32,
    ghost fits: { value < 2 ^ 32 },
}
