// What a rule rewrites its nonterminal into: a left and a right nonterminal, or one code.
#[derive(Clone, Copy, PartialEq, Eq, Debug)]
pub enum Expansion {
    Pair { left: u32, right: u32 },
    Leaf { code: u8 },
}

// A rule that rewrites `lhs`. Its bottom number is that of the rule of the bottom grammar that it stems from.
#[derive(Clone, Copy, PartialEq, Eq, Debug)]
pub struct Rule {
    pub lhs: u32,
    pub expansion: Expansion,
    pub cost: u16,
    pub bottom: u32,
}

impl Rule {
    // What rows hold before rules are written to them.
    pub const BLANK: Rule = Rule {
        lhs: 0,
        expansion: Expansion::Leaf { code: 0 },
        cost: 0,
        bottom: 0,
    };
}
