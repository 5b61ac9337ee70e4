// The most nodes that there can be: rings of messages, 128 nodes against 127 and 128, in areas of just the sizes that are needed.
ghost use Rattle.std.specs.Prelude.{◌≤◌};

use crate::printing::{Shown, steps};
use replace::may_replace;
use showing::room::message;
use std::{array, io};
use table::{Item, Kind, Sort, Table};

// n messages in a ring, each with one item.
fn ring(n: u8, item: Item) -> Table {
    let count = usize::from(n);
    Table {
        nodes: array::from_fn(|i| {
            let next = if i + 1 < count { i + 1 } else { 0 };
            message(Kind::Send, item, next as u8)
        }),
        count: n,
        start: 0,
    }
}

fn show<const MARKS: usize, const PATH: usize, const SCRATCH: usize>(
    rt: &impl Print,
    name: &str,
    new: Table,
    old: Table,
) -> io::Result<()>
    requires { (MARKS ≤ 65536) × (PATH ≤ 65536) × (SCRATCH ≤ 65536) }
{
    let mut marks = [255; MARKS];
    let mut path = [65535; PATH];
    let mut scratch = [65535; SCRATCH];
    let answer = may_replace(new, b"", old, b"", &mut marks, &mut path, &mut scratch);
    println!(rt; "{name}: {}, steps {}", Shown(answer), steps(answer))
}

// 2 × 128 × 127 marks, one less, and 2 × 128 × 128.
pub fn cases(rt: &impl Print) -> io::Result<()> {
    let void = Item::OfSort(Sort::Void);
    let first = Item::Session(0);
    show::<32512, 32512, 65024>(
        rt,
        "128 against 127, turn 0 alone",
        ring(128, void),
        ring(127, void),
    )?;
    show::<32511, 32512, 65024>(
        rt,
        "128 against 127, one short",
        ring(128, void),
        ring(127, void),
    )?;
    show::<32512, 32512, 65024>(
        rt,
        "128 against 127, both turns",
        ring(128, first),
        ring(127, first),
    )?;
    show::<32768, 32768, 65536>(
        rt,
        "128 against 128, both turns",
        ring(128, first),
        ring(128, Item::Session(1)),
    )?;
    show::<32512, 32512, 65024>(
        rt,
        "128 against 128, too short",
        ring(128, void),
        ring(128, void),
    )
}
