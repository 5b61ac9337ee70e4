// What document 01 says of verdicts, of the areas behind them, and of the missing label: of texts; of areas of every length and full of
// anything; of tables that are not well formed, and of rubbish in unused room; of the most nodes that there can be. The file `stdout` has
// what each must be, written by hand from document 01: a line for each case, its name, a colon, the answer, and then what the areas hold.
#![tactic(auto)]

mod areas;
mod large;
mod lengths;
mod lost;
mod printing;
mod tables;
mod texts;

use std::io;

fn main(rt: HostRuntime) -> io::Result<()> {
    texts::cases(&rt)?;
    lengths::cases(&rt)?;
    tables::cases(&rt)?;
    lost::cases(&rt)?;
    large::cases(&rt)
}
