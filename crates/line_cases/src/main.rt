// What document 01 says of the printed line, for both questions: its rows, the texts that it names, each refusal in either text, each reason,
// the order of runs, sessions handed over, each limit at its number and one above, words and blanks, the form of the input, and the areas
// that are lent. The file `stdout` has what each case must print, written by hand from document 01: its name, a colon, and the line, or
// number and place where an area is too short.
#![tactic(auto)]

mod areas;
mod handed;
mod inputs;
mod large;
mod lengths;
mod limits;
mod lists;
mod named;
mod reasons;
mod refusals;
mod rows;
mod runs;
mod show;
mod spellings;
mod texts;

use std::io;

fn main(rt: HostRuntime) -> io::Result<()> {
    rows::cases(&rt)?;
    named::cases(&rt)?;
    reasons::cases(&rt)?;
    runs::cases(&rt)?;
    handed::cases(&rt)?;
    refusals::cases(&rt)?;
    spellings::cases(&rt)?;
    lengths::cases(&rt)?;
    inputs::cases(&rt)?;
    limits::cases(&rt)?;
    large::cases(&rt)
}
