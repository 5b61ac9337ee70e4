// What cases put into unused room.
use table::{ITEMS_MOST, Item, Kind, LABELS_MOST, Label, NODES_MOST, Node, Slot, Table};

// A node whose every number is as large as it can be.
pub fn rubbish(kind: Kind) -> Node {
    let label = Label {
        at: 65535,
        len: 255,
        to: 255,
    };
    let slot = Slot {
        item: Item::Session(255),
    };
    Node {
        kind,
        items: [slot; ITEMS_MOST],
        item_count: 255,
        labels: [label; LABELS_MOST],
        label_count: 255,
        next: 255,
    }
}

// A message of one item, and a choice of one label of two bytes, their unused room full of rubbish.
fn message(item: Item, next: u8) -> Node {
    let mut x = rubbish(Kind::Receive);
    x.items[0] = Slot { item };
    x.item_count = 1;
    x.next = next;
    x
}

fn choice(to: u8) -> Node {
    let mut x = rubbish(Kind::Choose);
    x.labels[0] = Label { at: 0, len: 2, to };
    x.label_count = 1;
    x
}

// `+{go: ?(item); end}` in three nodes, and rubbish behind them.
pub fn three(item: Item, count: u8, start: u8) -> Table {
    let mut nodes = [rubbish(Kind::Send); NODES_MOST];
    nodes[0] = choice(1);
    nodes[1] = message(item, 2);
    nodes[2] = rubbish(Kind::End);
    Table {
        nodes,
        count,
        start,
    }
}
