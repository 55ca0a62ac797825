// The program: runs the stored jobs through the library, and prints how many get their stored answer.
#![tactic(auto)]

mod hex;
mod misread;
mod stored;

use std::fs;
use stored::{differing, load};

// How many of the jobs that differ are named.
const NAMED: usize = 10;

// Prints how many of the stored jobs agree, and the numbers of the first that do not.
fn main(rt: HostRuntime) -> anyhow::Result<()> {
    let heap = rt.alloc();
    let text = fs::read_to_string(&rt, "vectors.txt")?;
    let stored = load(heap, text.as_str())?;
    let differing = differing(heap, stored.as_slice())?;
    let all = stored.len();
    let agree = all - differing.len();
    println!(rt; "{agree} of {all} agree")?;
    for number in differing.iter().take(NAMED) {
        println!(rt; "job {number} differs")?;
    }
    Ok(())
}
