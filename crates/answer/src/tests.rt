// Tests of the text of an answer.
use crate::report::{Report, Totals};
use crate::text::text;
use commands::fault::Fault;
use grammar::refusal::Refusal;
use lists::list::List;
use semiring::cost::Cost;
use semiring::count::Count;
use semiring::yes_no::YesNo;
use std::test::Fail;
use tree::record::Record;

// A report of one derivation with this cost, of one node.
fn one_node(cost: u32) -> Report {
    let node = Record {
        begin: 0,
        end: 1,
        bottom: 7,
    };
    Report {
        totals: Totals {
            read: YesNo { value: true },
            count: Count::new(1),
            cost: Cost::new(cost),
        },
        nodes: List::first([node; 127], 1),
    }
}

#[test]
fn texts(rt: HostRuntime) -> Result<(), Fail> {
    let fault = Fault {
        refusal: Refusal::BadJob,
        place: 4096,
    };
    let said = text(rt.alloc(), &Err(fault))?;
    assert_eq!(rt; said.as_str(), "fault 16 4096\n");
    let said = text(rt.alloc(), &Ok(one_node(258)))?;
    assert_eq!(rt; said.as_str(), "read yes\ncount 1\ncost 258\nnode 0 1 7\n");
    Ok(())
}
