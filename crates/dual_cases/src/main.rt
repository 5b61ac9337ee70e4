// What document 01 says of duals: of texts, by node; of tables with rubbish in their unused room; each size at its number and one above;
// and which refusal goes first. The file `stdout` has what each must be, written by hand from document 01: a line for each case, its name, a
// colon and the answer as the crate `showing` prints it. Of a large dual the count, and the nodes at the seams: the first, the last of the
// turned ones, and, where the originals follow, their first and their last.
#![tactic(auto)]

mod made;
mod sizes;
mod texts;

use std::io;

fn main(rt: HostRuntime) -> io::Result<()> {
    texts::cases(&rt)?;
    made::cases(&rt)?;
    sizes::cases(&rt)
}
