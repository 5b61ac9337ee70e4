// What the benchmarks time of the parts below the printed line, through C. Each answers a number that depends on what was made, so that the
// compiler can leave none of it out.
#![tactic(auto)]

use dual::dual;
use reader::read;
use replace::may_replace;
use table::NODES_MOST;
use table::answers::{Refusal, Verdict};

// The nodes of a text's table.
#[unsafe(no_mangle)]
pub extern "C" fn timed_read(text: &[u8]) -> usize {
    usize::from(read(text).table.count)
}

// The dual of a text's table, made so many times. What is answered is read from another of its nodes each time.
#[unsafe(no_mangle)]
pub extern "C" fn timed_dual(text: &[u8], times: usize) -> usize {
    let made = read(text);
    let mut seen = 0;
    for i in 0..times {
        let turned = dual(made.table, text).table;
        let node = turned.nodes[i % NODES_MOST];
        // Not `usize::from`: the check does not find from it that the sum fits.
        seen = seen % NODES_MOST + node.next as usize;
    }
    seen
}

// The marks after a yes, or the steps after a no.
fn counted(answer: Result<Verdict, Refusal>) -> usize {
    match answer {
        Ok(Verdict::Yes(count)) => count,
        Ok(Verdict::No(found)) => found.steps,
        Err(_) => 0,
    }
}

// A verdict on two texts' tables, asked so many times.
#[unsafe(no_mangle)]
pub extern "C" fn timed_verdict(
    new: &[u8],
    old: &[u8],
    marks: &mut [u8],
    path: &mut [u16],
    scratch: &mut [u16],
    times: usize,
) -> usize {
    let first = read(new);
    let second = read(old);
    let mut count = 0;
    for _ in 0..times {
        let answer = may_replace(first.table, new, second.table, old, marks, path, scratch);
        count = counted(answer);
    }
    count
}
