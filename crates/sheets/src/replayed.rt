// A list of calls with refusals in between: the answers, and each cell beside that of a chart filled anew.
use crate::rules::{UNTOUCHED, known_rules};
use chart::chart::Chart;
use entries::call::Call;
use grammar::grammar::Grammar;
use grammar::refusal::Refusal;
use grammar::rule::Rule;
use grammar::weighing::UnitWeighing;
use runs::replay::{Replayed, replay};
use semiring::cost::Cost;
use semiring::count::Count;
use semiring::semiring::Semiring;
use std::process::Abort;
use std::test::Fail;

// The calls.
const CALLS: [Call; 16] = [
    Call::TakeBack,
    Call::Append(0b01),
    Call::Append(0b100),
    Call::Append(0),
    Call::Keep,
    Call::Try(0b10),
    Call::Append(0b01),
    Call::TakeBack,
    Call::Withdraw,
    Call::Append(0b11),
    Call::Append(0b10),
    Call::Replace(3, 0b01),
    Call::Replace(0, 0b11),
    Call::Append(0b01),
    Call::Try(0b01),
    Call::Withdraw,
];

// Their answers.
const ANSWERS: [Result<(), Refusal>; 16] = [
    Err(Refusal::NoEntry),
    Ok(()),
    Err(Refusal::BadEntry),
    Err(Refusal::BadEntry),
    Err(Refusal::NoTrial),
    Ok(()),
    Err(Refusal::TrialOpen),
    Err(Refusal::TrialOpen),
    Ok(()),
    Ok(()),
    Ok(()),
    Err(Refusal::NoEntry),
    Ok(()),
    Err(Refusal::NoRoom),
    Err(Refusal::NoRoom),
    Err(Refusal::NoTrial),
];

// The entries that the calls leave.
const LEFT: [u32; 3] = [0b11, 0b11, 0b10];

// Spans in use, and some that are not.
const SPANS: [(usize, usize); 8] = [
    (0, 1),
    (1, 2),
    (2, 3),
    (0, 2),
    (1, 3),
    (0, 3),
    (3, 3),
    (0, 4),
];

// The answers are those expected.
fn check_answers(rt: &impl Abort, answers: &[Result<(), Refusal>]) {
    for (answer, expected) in answers.iter().zip(ANSWERS.iter()) {
        assert_eq!(rt; *answer, *expected);
    }
}

// Each cell is that of a chart filled anew with the entries that the calls leave.
fn check_cells<G: Grammar>(
    rt: &impl Abort,
    chart: &Chart<'_, Count>,
    grammar: &G,
) -> Result<(), Fail> {
    let mut slots = [Count::zero(); 6];
    let mut fresh = Chart::new(&mut slots, grammar);
    fresh.append(grammar, &UnitWeighing::new(), LEFT[0])?;
    fresh.append(grammar, &UnitWeighing::new(), LEFT[1])?;
    fresh.append(grammar, &UnitWeighing::new(), LEFT[2])?;
    for (begin, end) in SPANS {
        assert_eq!(rt; chart.cell(begin, end, 0), fresh.cell(begin, end, 0));
    }
    Ok(())
}

#[test]
fn calls_with_refusals(rt: HostRuntime) -> Result<(), Fail> {
    let mut rows = [Rule::BLANK; 3];
    let grammar = known_rules(&mut rows);
    let mut slots = [Count::one(); 7];
    let mut chart = Chart::new(&mut slots, &grammar);
    let mut costs = [Cost::one(); 7];
    let mut answers = [Ok(()); 16];
    let mut records = [UNTOUCHED; 6];
    let done = replay(
        &mut chart,
        &mut costs,
        &grammar,
        &UnitWeighing::new(),
        &CALLS,
        &mut answers,
        &mut records,
    );
    let Replayed {
        total,
        cost: _,
        tree,
        trial,
    } = done;
    if let Some(trial) = trial {
        let _ = chart.keep(trial);
        return Err(Fail::new("a trial is left open"));
    }
    check_answers(&rt, &answers);
    assert_eq!(rt; total?.value, 8);
    assert_eq!(rt; tree, Ok(5));
    assert_eq!(rt; (records[4].bottom, records[5].bottom), (2, 9));
    check_cells(&rt, &chart, &grammar)
}

// A token from before a clear is spent, and answered by the mark alone.
#[test]
fn token_after_clear(rt: HostRuntime) -> Result<(), Fail> {
    let mut rows = [Rule::BLANK; 3];
    let grammar = known_rules(&mut rows);
    let mut slots = [Count::zero(); 3];
    let mut chart = Chart::new(&mut slots, &grammar);
    match chart.try_append(&grammar, &UnitWeighing::new(), 0b01) {
        Ok(trial) => {
            chart.clear();
            assert_eq!(rt; chart.keep(trial), Err(Refusal::NoTrial));
            assert_eq!(rt; chart.len(), 0);
            Ok(())
        }
        Err(_) => Err(Fail::new("refused")),
    }
}
