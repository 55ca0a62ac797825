// Tests of the reader of jobs.
use crate::command::Command;
use crate::counting::count_commands;
use crate::fault::Fault;
use crate::reader::Reader;
use grammar::refusal::Refusal;
use std::process::Abort;
use std::test::Fail;

const SAMPLE: [u8; 40] = [
    0x01, 0x01, 0x02, 0x00, // a grammar
    0x02, 0x00, 0x00, 0x00, 0x00, 0x01, // three rules
    0x03, 0x00, 0x00, 0x00, 0x02, //
    0x03, 0x00, 0x01, 0x00, 0x03, //
    0x05, 0x02, 0x02, 0x00, 0x02, // an automaton
    0x06, 0x00, 0x01, 0x01, // and its one step
    0x0A, 0x00, 0x00, 0x00, 0x03, // two entries
    0x0A, 0x00, 0x00, 0x00, 0x03, //
    0x0B,
];

// The places of the commands of the sample.
const PLACES: [usize; 9] = [0, 4, 10, 15, 20, 25, 29, 34, 39];

// The input is no job, and is faulted at the place.
fn faulted(rt: &impl Abort, input: &[u8], place: usize) {
    assert_eq!(rt;
        count_commands(input),
        Err(Fault {
            refusal: Refusal::BadJob,
            place
        })
    );
}

#[test]
fn reads_the_sample(rt: HostRuntime) -> Result<(), Fail> {
    let mut reader = Reader::new(&SAMPLE);
    for place in PLACES {
        assert_eq!(rt; reader.place(), place);
        assert!(rt; reader.next()?.is_some());
    }
    assert!(rt; reader.next()?.is_none());
    assert_eq!(rt; count_commands(&SAMPLE), Ok(9));
    Ok(())
}

#[test]
fn cut_at_each_byte(rt: HostRuntime) {
    let mut place = 0;
    for end in 0..40 {
        if PLACES.contains(&end) {
            place = end;
        }
        faulted(&rt, &SAMPLE[0..end], place);
    }
}

#[test]
fn breaks(rt: HostRuntime) {
    faulted(&rt, &[0; 4097], 4096);
    faulted(&rt, &[0; 4096], 0);
    faulted(&rt, &[0x0B], 0);
    faulted(&rt, &[0x02, 0, 0, 0, 0, 0], 0);
    faulted(&rt, &[0x01, 1, 1, 0, 0x09], 4);
    faulted(&rt, &[0x01, 1, 1, 0, 0x01, 1, 1, 0], 4);
    faulted(&rt, &[0x01, 1, 1, 0, 0x06, 0, 0, 0], 4);
    faulted(&rt, &[0x01, 1, 1, 0, 0x08, 0, 0], 4);
    faulted(&rt, &[0x01, 1, 1, 0, 0x05, 1, 1, 0, 1, 0x05, 1, 1, 0, 1], 9);
    faulted(&rt, &[0x01, 1, 1, 0, 0x07, 1, 0x07, 1], 6);
    faulted(&rt, &[0x01, 1, 1, 0, 0x0A, 0, 0, 0, 1, 0x04, 0, 0], 9);
    faulted(&rt, &[0x01, 1, 1, 0, 0x0B, 0], 5);
    faulted(&rt, &[0x01, 1, 1, 0, 0x0B, 0x0B], 5);
}

#[test]
fn operands(rt: HostRuntime) -> Result<(), Fail> {
    let mut reader = Reader::new(&[0x01, 2, 3, 1, 0x02, 1, 2, 3, 4, 5]);
    assert_eq!(rt;
        reader.next()?,
        Some(Command::Grammar {
            nonterminals: 2,
            codes: 3,
            start: 1,
        })
    );
    assert_eq!(rt;
        reader.next()?,
        Some(Command::Pair {
            lhs: 1,
            left: 2,
            right: 3,
            cost: 1029,
        })
    );
    Ok(())
}
