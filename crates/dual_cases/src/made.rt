// Duals of tables made by hand: "whatever makes a table fills it with 0 (`end`, `string`)", whatever the given table had there.
use dual::dual;
use showing::Shown;
use showing::room::print_room;
use showing::rubbish::three;
use std::io;
use table::{Item, Sort};

// The table starts at its second node, the message.
fn show(rt: &impl Print, name: &str, item: Item, names: &[u8]) -> io::Result<()> {
    let made = dual(three(item, 3, 1), names);
    let shown = Shown {
        what: &made,
        names,
        places: false,
    };
    println!(rt; "{name}: {shown}")?;
    print_room(rt, name, &made.table)
}

pub fn cases(rt: &impl Print) -> io::Result<()> {
    let void = Item::OfSort(Sort::Void);
    show(rt, "rubbish", void, b"go")?;
    show(rt, "rubbish and an item", Item::Session(0), b"go")?;
    let past = Item::Session(3);
    show(rt, "item that links past the nodes", past, b"go")?;
    show(rt, "name bytes too short", void, b"g")
}
