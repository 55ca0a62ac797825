// Tests of the table grammar.
use crate::draft::Draft;
use grammar::grammar::Grammar;
use grammar::refusal::Refusal;
use grammar::rule::{Expansion, Rule};
use std::test::Fail;

// What a draft is made with, and whether that is refused.
#[derive(Clone, Copy)]
struct Making {
    nonterminals: u32,
    codes: u32,
    start: u32,
    refusal: Option<Refusal>,
}

// A rule to add, and the answer.
#[derive(Clone, Copy)]
struct Adding {
    lhs: u32,
    expansion: Expansion,
    answer: Result<u32, Refusal>,
}

#[test]
fn makes(rt: HostRuntime) {
    let out = Some(Refusal::GrammarOutOfRange);
    let cases = [
        Making {
            nonterminals: 1,
            codes: 1,
            start: 0,
            refusal: None,
        },
        Making {
            nonterminals: 32,
            codes: 32,
            start: 31,
            refusal: None,
        },
        Making {
            nonterminals: 0,
            codes: 1,
            start: 0,
            refusal: out,
        },
        Making {
            nonterminals: 33,
            codes: 1,
            start: 0,
            refusal: out,
        },
        Making {
            nonterminals: 1,
            codes: 0,
            start: 0,
            refusal: out,
        },
        Making {
            nonterminals: 1,
            codes: 33,
            start: 0,
            refusal: out,
        },
        Making {
            nonterminals: 2,
            codes: 1,
            start: 2,
            refusal: out,
        },
    ];
    for case in cases {
        let mut rows = [Rule::BLANK; 2];
        let draft = Draft::new(&mut rows, case.nonterminals, case.codes, case.start);
        assert_eq!(rt; draft.refusal(), case.refusal);
    }
}

#[test]
fn adds(rt: HostRuntime) -> Result<(), Fail> {
    let pair = Expansion::Pair { left: 0, right: 1 };
    let cases = [
        Adding {
            lhs: 2,
            expansion: pair,
            answer: Err(Refusal::Undeclared),
        },
        Adding {
            lhs: 0,
            expansion: Expansion::Pair { left: 2, right: 0 },
            answer: Err(Refusal::Undeclared),
        },
        Adding {
            lhs: 0,
            expansion: Expansion::Pair { left: 0, right: 2 },
            answer: Err(Refusal::Undeclared),
        },
        Adding {
            lhs: 0,
            expansion: Expansion::Leaf { code: 3 },
            answer: Err(Refusal::Undeclared),
        },
        Adding {
            lhs: 1,
            expansion: pair,
            answer: Ok(0),
        },
        Adding {
            lhs: 1,
            expansion: pair,
            answer: Ok(1),
        },
        Adding {
            lhs: 2,
            expansion: pair,
            answer: Err(Refusal::Undeclared),
        },
        Adding {
            lhs: 1,
            expansion: pair,
            answer: Err(Refusal::NoRow),
        },
    ];
    let mut rows = [Rule::BLANK; 2];
    let mut draft = Draft::new(&mut rows, 2, 3, 1);
    for case in cases {
        assert_eq!(rt; draft.add(case.lhs, case.expansion, 7), case.answer);
    }
    let table = draft.seal();
    assert_eq!(rt; table.bound(), 2);
    assert_eq!(rt; table.is_start(1), true);
    assert_eq!(rt; table.is_start(0), false);
    for number in 0..2 {
        let Some(rule) = table.rule(number) else {
            return Err(Fail::new("no rule"));
        };
        assert_eq!(rt; (rule.lhs, rule.cost, rule.bottom), (1, 7, number));
    }
    assert!(rt; table.rule(2).is_none());
    Ok(())
}

#[test]
fn at_most_256(rt: HostRuntime) {
    let mut rows = [Rule::BLANK; 300];
    let mut draft = Draft::new(&mut rows, 1, 1, 0);
    for number in 0..256 {
        assert_eq!(rt; draft.add(0, Expansion::Leaf { code: 0 }, 1), Ok(number));
    }
    assert_eq!(rt;
        draft.add(0, Expansion::Leaf { code: 0 }, 1),
        Err(Refusal::NoRow)
    );
    let table = draft.seal();
    assert_eq!(rt; table.bound(), 256);
    assert!(rt; table.rule(255).is_some());
}

#[test]
fn smallest(rt: HostRuntime) {
    let mut rows = [Rule::BLANK; 2];
    let mut draft = Draft::new(&mut rows, 5, 40, 0);
    assert_eq!(rt;
        draft.add(1, Expansion::Leaf { code: 0 }, 1),
        Err(Refusal::Undeclared)
    );
    assert_eq!(rt;
        draft.add(0, Expansion::Leaf { code: 0 }, 1),
        Err(Refusal::NoRow)
    );
    let table = draft.seal();
    assert_eq!(rt;
        (table.nonterminals(), table.codes(), table.bound()),
        (1, 1, 0)
    );
    assert!(rt; table.is_start(0));
}
