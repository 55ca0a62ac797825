// Whether there is a derivation.
#[derive(Clone, Copy, PartialEq, Eq, Debug)]
pub struct YesNo {
    pub value: bool,
}
