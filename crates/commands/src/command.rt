// The commands of a job. Each is one byte and its operands, which are taken from the job by a slice pattern.
ghost use Rattle.std.specs.Prelude.{MatchOption};
ghost use Rattle.commands.specs.Format.{Begins, NoCommand};

#[derive(Clone, Copy, PartialEq, Eq, Debug)]
pub enum Command {
    // 01: a table grammar
    Grammar {
        nonterminals: u8,
        codes: u8,
        start: u8,
    },
    // 02: a rule into two nonterminals
    Pair {
        lhs: u8,
        left: u8,
        right: u8,
        cost: u16,
    },
    // 03: a rule into one code
    Leaf {
        lhs: u8,
        code: u8,
        cost: u16,
    },
    // 04: a ban of a rule
    Ban {
        number: u16,
    },
    // 05: an automaton
    Automaton {
        states: u8,
        codes: u8,
        start: u8,
        accepting: u8,
    },
    // 06: one step of the automaton
    Step {
        from: u8,
        code: u8,
        to: u8,
    },
    // 07: a renaming
    Renaming {
        count: u8,
    },
    // 08: one reading of the renaming
    Reading {
        recorder: u8,
        code: u8,
    },
    // 0A: an entry, as a set of codes
    Entry {
        codes: u32,
    },
    // 0B: the end
    End,
}

impl Command {
    // The command at the front of the bytes and what follows it, or none where they begin with no command.
    pub(crate) fn first(bytes: &[u8]) -> Option<(Command, &[u8])>
        ensures { MatchOption result (NoCommand bytes.now) (λ p. Begins bytes.now p.0 p.1.now) }
    {
        match bytes {
            [0x01, n, t, start, rest @ ..] => Some((
                Command::Grammar {
                    nonterminals: *n,
                    codes: *t,
                    start: *start,
                },
                rest,
            )),
            [0x02, lhs, left, right, high, low, rest @ ..] => {
                Some((
                    Command::Pair {
                        lhs: *lhs,
                        left: *left,
                        right: *right,
                        cost: u16::from_be_bytes([*high, *low]),
                    },
                    rest,
                ))
            }
            [0x03, lhs, code, high, low, rest @ ..] => {
                Some((
                    Command::Leaf {
                        lhs: *lhs,
                        code: *code,
                        cost: u16::from_be_bytes([*high, *low]),
                    },
                    rest,
                ))
            }
            [0x04, high, low, rest @ ..] => Some((
                Command::Ban {
                    number: u16::from_be_bytes([*high, *low]),
                },
                rest,
            )),
            [0x05, q, k, start, accepting, rest @ ..] => {
                Some((
                    Command::Automaton {
                        states: *q,
                        codes: *k,
                        start: *start,
                        accepting: *accepting,
                    },
                    rest,
                ))
            }
            [0x06, from, code, to, rest @ ..] => Some((
                Command::Step {
                    from: *from,
                    code: *code,
                    to: *to,
                },
                rest,
            )),
            [0x07, count, rest @ ..] => Some((Command::Renaming { count: *count }, rest)),
            [0x08, recorder, code, rest @ ..] => Some((
                Command::Reading {
                    recorder: *recorder,
                    code: *code,
                },
                rest,
            )),
            [0x0A, a, b, c, d, rest @ ..] => Some((
                Command::Entry {
                    codes: u32::from_be_bytes([*a, *b, *c, *d]),
                },
                rest,
            )),
            [0x0B, rest @ ..] => Some((Command::End, rest)),
            _ => None,
        }
    }
}
