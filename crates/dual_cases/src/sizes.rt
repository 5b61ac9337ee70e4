// "A table has at most 128 nodes", and so has a dual: n without session items, 2n with any.
use dual::dual;
use showing::Shown;
use showing::room::message;
use std::io;
use table::{Item, Kind, NODES_MOST, Sort, Table};

// n messages of one item, each going on to the first.
fn messages(n: u8, item: Item) -> Table {
    Table {
        nodes: [message(Kind::Receive, item, 0); NODES_MOST],
        count: n,
        start: 0,
    }
}

// n messages of a string each, and in node k, which nothing reaches, a session item.
fn one_session(n: u8, k: usize) -> Table {
    let mut t = messages(n, Item::OfSort(Sort::String));
    if k < NODES_MOST {
        t.nodes[k] = message(Kind::Receive, Item::Session(0), 0);
    }
    t
}

// A node of a table, with its number.
fn print_seam(rt: &impl Print, t: &Table, i: usize) -> io::Result<()> {
    let Some(node) = t.nodes.get(i) else {
        return Ok(());
    };
    let shown = Shown {
        what: node,
        names: b"",
        places: false,
    };
    print!(rt; "; {i} {shown}")
}

// The count and the seams of the dual of n nodes.
fn print_seams(rt: &impl Print, t: &Table, n: usize) -> io::Result<()> {
    print!(rt; "ok, {} nodes, start {}", t.count, t.start)?;
    print_seam(rt, t, 0)?;
    if 0 < n {
        print_seam(rt, t, n - 1)?;
    }
    let count = usize::from(t.count);
    if n < count {
        print_seam(rt, t, n)?;
        print_seam(rt, t, count - 1)?;
    }
    Ok(())
}

fn show(rt: &impl Print, name: &str, t: Table) -> io::Result<()> {
    let made = dual(t, b"");
    print!(rt; "{name}: ")?;
    match made.answer {
        Ok(()) => print_seams(rt, &made.table, usize::from(t.count))?,
        Err(refusal) => rt.print(refusal)?,
    }
    rt.println("")
}

fn show_messages(rt: &impl Print, cases: &[(&str, u8, Item)]) -> io::Result<()> {
    for (name, n, item) in cases {
        show(rt, name, messages(*n, *item))?;
    }
    Ok(())
}

fn without_items(rt: &impl Print) -> io::Result<()> {
    let float = Item::OfSort(Sort::Float);
    show_messages(
        rt,
        &[
            ("128 nodes without items", 128, float),
            ("129 nodes without items", 129, float),
            ("255 nodes without items", 255, float),
            ("no nodes", 0, float),
        ],
    )
}

fn with_items(rt: &impl Print) -> io::Result<()> {
    show_messages(
        rt,
        &[
            ("64 nodes with items", 64, Item::Session(63)),
            ("65 nodes with items", 65, Item::Session(64)),
            ("128 nodes with items", 128, Item::Session(127)),
            ("129 nodes with items", 129, Item::Session(0)),
        ],
    )
}

// "With any session item", in a node that nothing reaches.
fn with_one(rt: &impl Print) -> io::Result<()> {
    for (name, n, k) in [
        ("64 nodes, an item in the last", 64, 63),
        ("65 nodes, an item in the last", 65, 64),
        ("65 nodes, an item behind the last", 65, 65),
    ] {
        show(rt, name, one_session(n, k))?;
    }
    Ok(())
}

// "10 (place 1), 13"
fn order(rt: &impl Print) -> io::Result<()> {
    let past = messages(65, Item::Session(65));
    show(rt, "65 nodes, an item that links past them", past)?;
    let past = Table {
        start: 65,
        ..messages(65, Item::Session(0))
    };
    show(rt, "65 nodes with items, a start past them", past)
}

// A dual of 66 nodes is a table too, and has no dual.
fn twice(rt: &impl Print) -> io::Result<()> {
    let t = messages(33, Item::Session(0));
    show(rt, "33 nodes with items", t)?;
    show(rt, "33 nodes with items, twice", dual(t, b"").table)
}

pub fn cases(rt: &impl Print) -> io::Result<()> {
    without_items(rt)?;
    with_items(rt)?;
    with_one(rt)?;
    order(rt)?;
    twice(rt)
}
