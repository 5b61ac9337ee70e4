// Tables made by hand: such as are not well formed, and such as have rubbish in their unused room.
use crate::areas::{Full, Named, Sizes, show};
use showing::rubbish::three;
use std::io;
use table::{Item, Sort, Table};

fn show_made(rt: &impl Print, name: &str, new: &Named, old: &Named) -> io::Result<()> {
    let lent = Sizes {
        marks: 18,
        path: 18,
        scratch: 36,
    };
    show(rt, name, new, old, 18, lent, Full { byte: 9, number: 9 })
}

// Tables that are not well formed, held against a good one.
fn against_good(rt: &impl Print, good: &Named) -> io::Result<()> {
    let void = Item::OfSort(Sort::Void);
    for (name, item, count, start) in [
        ("new with no nodes", void, 0, 0),
        ("new with 129 nodes", void, 129, 0),
        ("new starts past its nodes", void, 3, 3),
        ("new links past its nodes", Item::Session(3), 3, 0),
    ] {
        let new = Named::new(three(item, count, start), b"go");
        show_made(rt, name, &new, good)?;
    }
    Ok(())
}

// A good table with other name bytes than its own on either side.
fn named(rt: &impl Print, table: Table, cases: &[(&str, &str, &str)]) -> io::Result<()> {
    for (name, new, old) in cases {
        let new = Named::new(table, new.as_bytes());
        let old = Named::new(table, old.as_bytes());
        show_made(rt, name, &new, &old)?;
    }
    Ok(())
}

pub fn cases(rt: &impl Print) -> io::Result<()> {
    let void = Item::OfSort(Sort::Void);
    let good = Named::new(three(void, 3, 0), b"go");
    show_made(rt, "rubbish in unused room", &good, &good)?;
    named(
        rt,
        good.table,
        &[
            ("other name bytes", "going", "gone"),
            ("another label", "go", "no"),
        ],
    )?;
    let started = Named::new(three(void, 3, 1), b"go");
    show_made(rt, "another start", &good, &started)?;
    against_good(rt, &good)?;
    named(
        rt,
        good.table,
        &[
            ("new with short name bytes", "g", "go"),
            ("old with short name bytes", "go", ""),
        ],
    )?;
    let four = Named::new(three(void, 4, 0), b"go");
    show_made(rt, "old of rubbish", &good, &four)?;
    let all = Named::new(three(void, 255, 255), b"");
    show_made(rt, "both of rubbish", &four, &all)
}
