// Tests of answers, by their text.
use crate::responding::respond;
use std::alloc::Global;
use std::process::Abort;
use std::test::Fail;

// The answer to the input is the text.
fn says(rt: &impl Abort, heap: Global, input: &[u8], text: &str) -> Result<(), Fail> {
    let said = respond(heap, input)?;
    assert_eq!(rt; said.as_str(), text);
    Ok(())
}

#[test]
fn faults(rt: HostRuntime) -> Result<(), Fail> {
    let heap = rt.alloc();
    says(&rt, heap, &[], "fault 16 0\n")?;
    says(&rt, heap, &[0; 4097], "fault 16 4096\n")?;
    says(&rt, heap, &[0x01, 0, 1, 0], "fault 1 0\n")?;
    says(&rt, heap, &[0x01, 1, 2, 0, 0x03, 0, 2, 0, 0], "fault 2 4\n")?;
    says(&rt, heap, &[0x01, 1, 2, 0, 0x05, 1, 1, 0, 1], "fault 4 4\n")?;
    says(
        &rt,
        heap,
        &[0x01, 1, 2, 0, 0x05, 9, 2, 0, 1],
        "fault 15 4\n",
    )?;
    says(&rt, heap, &[0x01, 1, 2, 0, 0x07, 33], "fault 15 4\n")?;
    says(
        &rt,
        heap,
        &[0x01, 1, 2, 0, 0x07, 2, 0x08, 2, 0],
        "fault 15 6\n",
    )?;
    says(&rt, heap, &[0x01, 1, 2, 0, 0x0A, 0, 0, 0, 4], "fault 7 4\n")?;
    says(
        &rt,
        heap,
        &[0x01, 1, 2, 0, 0x0A, 0, 0, 0, 1, 0x0A, 0, 0, 0, 0],
        "fault 7 9\n",
    )
}

#[test]
fn readings(rt: HostRuntime) -> Result<(), Fail> {
    let heap = rt.alloc();
    says(
        &rt,
        heap,
        &[0x01, 1, 1, 0, 0x0B],
        "read no\ncount 0\ncost none\n",
    )?;
    says(
        &rt,
        heap,
        &[0x01, 1, 1, 0, 0x03, 0, 0, 1, 2, 0x0A, 0, 0, 0, 1, 0x0B],
        "read yes\ncount 1\ncost 258\nnode 0 1 0\n",
    )?;
    says(
        &rt,
        heap,
        &[
            0x01, 1, 1, 0, 0x03, 0, 0, 1, 2, 0x04, 0, 0, 0x0A, 0, 0, 0, 1, 0x0B,
        ],
        "read no\ncount 0\ncost none\n",
    )?;
    says(
        &rt,
        heap,
        &[
            0x01, 1, 1, 0, 0x03, 0, 0, 0, 5, 0x07, 3, 0x08, 2, 0, 0x0A, 0, 0, 0, 6, 0x0B,
        ],
        "read yes\ncount 1\ncost 5\nnode 0 1 0\n",
    )
}
