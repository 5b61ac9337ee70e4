// What document 01 calls well formed: each limit at its number and one above, words and reserved words, labels that are and are not
// twice in one choice, and anything at all in unused room. The file `stdout` has what each must be, written from document 01.
#![tactic(auto)]

use formed::well_formed;
use showing::rubbish::rubbish;
use std::{array, fmt, io};
use table::{ITEMS_MOST, Item, Kind, Label, NODES_MOST, Node, Slot, Sort, Table};

fn tell(rt: &impl Print, what: impl fmt::Display + Drop, t: Table, names: &[u8]) -> io::Result<()> {
    let answer = if well_formed(t, names) { "yes" } else { "no" };
    println!(rt; "{what}: {answer}")
}

// A table of two nodes, which starts at the first. Every node past the count is rubbish.
fn pair(x: Node, y: Node) -> Table {
    let mut nodes = [rubbish(Kind::Choose); NODES_MOST];
    nodes[0] = x;
    nodes[1] = y;
    Table {
        nodes,
        count: 2,
        start: 0,
    }
}

// A table of one node.
fn alone(x: Node) -> Table {
    Table {
        count: 1,
        ..pair(x, rubbish(Kind::Send))
    }
}

// A message of `count` items, all of them `item`.
fn message(kind: Kind, item: Item, count: u8, next: u8) -> Node {
    Node {
        items: [Slot { item }; ITEMS_MOST],
        item_count: count,
        next,
        ..rubbish(kind)
    }
}

// A choice of `count` labels: one byte each, at 0, 1 and so on, all of them to node 0.
fn choice(kind: Kind, count: u8) -> Node {
    Node {
        labels: array::from_fn(|i| Label {
            at: i as u16,
            len: 1,
            to: 0,
        }),
        label_count: count,
        ..rubbish(kind)
    }
}

// A choice of one label.
fn labelled(at: u16, len: u8, to: u8) -> Node {
    let mut x = choice(Kind::Branch, 1);
    x.labels[0] = Label { at, len, to };
    x
}

fn counts(rt: &impl Print) -> io::Result<()> {
    let end = rubbish(Kind::End);
    let one = alone(end);
    tell(rt, "1 node", one, b"")?;
    tell(rt, "0 nodes", Table { count: 0, ..one }, b"")?;
    let nodes = [end; NODES_MOST];
    for (what, count, start) in [
        ("128 nodes", 128, 0),
        ("start 127 of 128", 128, 127),
        ("start 128 of 128", 128, 128),
        ("129 nodes", 129, 0),
        ("255 nodes", 255, 0),
    ] {
        let t = Table {
            nodes,
            count,
            start,
        };
        tell(rt, what, t, b"")?;
    }
    Ok(())
}

fn items(rt: &impl Print) -> io::Result<()> {
    let sort = Item::OfSort(Sort::Void);
    for (what, kind, item, count) in [
        ("0 items", Kind::Receive, sort, 0),
        ("4 items", Kind::Send, sort, 4),
        ("5 items", Kind::Send, sort, 5),
        ("255 items", Kind::Receive, sort, 255),
        ("item to 0 of 1", Kind::Receive, Item::Session(0), 4),
        ("item to 1 of 1", Kind::Receive, Item::Session(1), 1),
        ("item to 255 of 1", Kind::Send, Item::Session(255), 4),
    ] {
        tell(rt, what, alone(message(kind, item, count, 0)), b"")?;
    }
    for (what, to) in [
        ("sorts and an item to 0 of 1", 0),
        ("sorts and an item to 1 of 1", 1),
    ] {
        let mut x = message(Kind::Send, sort, 4, 0);
        x.items[3] = Slot {
            item: Item::Session(to),
        };
        tell(rt, what, alone(x), b"")?;
    }
    Ok(())
}

// A message of one sort that goes on to `next`.
fn going_on(kind: Kind, next: u8) -> Node {
    message(kind, Item::OfSort(Sort::Float), 1, next)
}

fn links(rt: &impl Print) -> io::Result<()> {
    let end = rubbish(Kind::End);
    let past = going_on(Kind::Receive, 1);
    tell(rt, "continuation to 1 of 1", alone(past), b"")?;
    tell(rt, "continuation to 1 of 2", pair(past, end), b"")?;
    let past = going_on(Kind::Send, 2);
    tell(rt, "continuation to 2 of 2", pair(past, end), b"")?;
    let label = labelled(0, 2, 1);
    tell(rt, "label to 1 of 1", alone(label), b"ok")?;
    tell(rt, "label to 1 of 2", pair(label, end), b"ok")?;
    let unreached = going_on(Kind::Send, 0);
    tell(rt, "a node that nothing reaches", pair(end, unreached), b"")?;
    let five = Node {
        item_count: 5,
        ..unreached
    };
    tell(
        rt,
        "5 items in a node that nothing reaches",
        pair(end, five),
        b"",
    )
}

fn choices(rt: &impl Print) -> io::Result<()> {
    for (what, kind, count) in [
        ("0 labels", Kind::Choose, 0),
        ("1 label", Kind::Branch, 1),
        ("16 labels", Kind::Choose, 16),
        ("17 labels", Kind::Choose, 17),
        ("255 labels", Kind::Branch, 255),
    ] {
        tell(rt, what, alone(choice(kind, count)), b"abcdefghijklmnop")?;
    }
    Ok(())
}

// Tables of one choice of 16 labels of one byte each.
fn sixteen(rt: &impl Print, cases: &[(&str, &str)]) -> io::Result<()> {
    let t = alone(choice(Kind::Branch, 16));
    for (what, names) in cases {
        tell(rt, *what, t, names.as_bytes())?;
    }
    Ok(())
}

fn places(rt: &impl Print) -> io::Result<()> {
    sixteen(
        rt,
        &[
            ("16 labels, 15 name bytes", "abcdefghijklmno"),
            ("no name bytes", ""),
        ],
    )?;
    for (what, at, len, names) in [
        ("label at the end", 1, 2, "-ok"),
        ("label one past the end", 1, 3, "-ok"),
        ("label behind the end", 4, 0, "-ok"),
        ("label far behind the end", 65535, 255, "-ok"),
        ("label inside a longer word", 2, 2, "unknown"),
        ("reserved at the front of a longer word", 0, 3, "ends"),
        ("reserved at the end of a longer word", 1, 3, "send"),
    ] {
        tell(rt, what, alone(labelled(at, len, 0)), names.as_bytes())?;
    }
    Ok(())
}

// Tables of one choice of two labels, the first four bytes and the `len` bytes from `at` on.
fn beside(rt: &impl Print) -> io::Result<()> {
    for (what, at, len, names) in [
        ("one the other's front", 0, 3, "stop"),
        ("the same place twice", 0, 4, "stop"),
        ("the same at two places", 4, 4, "stopstop"),
        ("another at two places", 4, 4, "stopstep"),
    ] {
        let mut x = choice(Kind::Choose, 2);
        x.labels[0] = Label {
            at: 0,
            len: 4,
            to: 0,
        };
        x.labels[1] = Label { at, len, to: 0 };
        tell(rt, what, alone(x), names.as_bytes())?;
    }
    Ok(())
}

fn twice(rt: &impl Print) -> io::Result<()> {
    sixteen(
        rt,
        &[
            ("first and second the same", "aacdefghijklmnop"),
            ("first and last the same", "abcdefghijklmnoa"),
            ("seventh and twelfth the same", "abcdefghijkgmnop"),
            ("the same in the other case", "abcdefghijklmnoA"),
        ],
    )?;
    beside(rt)?;
    let x = choice(Kind::Branch, 2);
    tell(rt, "the same in two choices", pair(x, x), b"ab")
}

// A label of a letter and one byte more.
fn bytes(rt: &impl Print) -> io::Result<()> {
    let t = alone(labelled(0, 2, 0));
    for (what, byte) in [
        ("byte 0", 0),
        ("space", b' '),
        ("before the digits", b'/'),
        ("behind the digits", b':'),
        ("before the capitals", b'@'),
        ("behind the capitals", b'['),
        ("before the small letters", b'`'),
        ("behind the small letters", b'{'),
        ("byte 128", 128),
        ("byte 255", 255),
    ] {
        tell(rt, what, t, &[b'a', byte])?;
    }
    Ok(())
}

// Tables of one choice of one label, which is all of the name.
fn named(rt: &impl Print, names: &[&str]) -> io::Result<()> {
    for name in names {
        // A longer name is no label: its length is one byte.
        let Ok(len) = u8::try_from(name.len()) else {
            continue;
        };
        let label = labelled(0, len, 0);
        let what = format_args!("label {name}");
        tell(rt, what, alone(label), name.as_bytes())?;
    }
    Ok(())
}

fn spellings(rt: &impl Print) -> io::Result<()> {
    named(
        rt,
        &[
            "",
            "a",
            "Z9_",
            "z0A",
            "_a",
            "9a",
            "sixteen_bytes_ok",
            "seventeen_bytes__",
        ],
    )
}

fn reserved(rt: &impl Print) -> io::Result<()> {
    named(
        rt,
        &[
            "end", "string", "float", "boolean", "void", "End", "VOID", "en", "ends", "booleans",
        ],
    )
}

fn main(rt: HostRuntime) -> io::Result<()> {
    counts(&rt)?;
    items(&rt)?;
    links(&rt)?;
    choices(&rt)?;
    places(&rt)?;
    twice(&rt)?;
    bytes(&rt)?;
    spellings(&rt)?;
    reserved(&rt)
}
