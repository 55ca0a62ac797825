// A node of a tree as it is written: the span that it covers, and the bottom number of its rule.
#[derive(Clone, Copy, PartialEq, Eq, Debug)]
pub struct Record {
    pub begin: usize,
    pub end: usize,
    pub bottom: u32,
}
