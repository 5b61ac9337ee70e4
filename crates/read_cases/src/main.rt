// What document 01 says of a text: its rows, the tables of texts, each limit at its number and one above, which refusal goes first, broken
// texts of every sort, and words. Where document 01 leaves something open, docs/DECISIONS.md decides. The file `stdout` has what each text
// must be answered, written by hand from the documents: a line for each case, its name, a colon and the answer. Of a text that is taken the
// answer has the start and then each node in order: its sign, its items or labels, and where they lead (`>`); behind a message's items
// follows where it goes on.
#![tactic(auto)]

mod broken;
mod limits;
mod order;
mod room;
mod rows;
mod show;
mod spellings;
mod tables;
mod texts;
mod tokens;

use std::io;

fn main(rt: HostRuntime) -> io::Result<()> {
    rows::cases(&rt)?;
    tables::cases(&rt)?;
    room::cases(&rt)?;
    limits::cases(&rt)?;
    order::cases(&rt)?;
    tokens::cases(&rt)?;
    broken::cases(&rt)?;
    spellings::cases(&rt)
}
