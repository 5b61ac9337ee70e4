// "Room that a node's kind or the counts leave unused": "whatever makes a table fills it with 0 (`end`, `string`)".
use std::io;
use table::{ITEMS_MOST, Item, Kind, LABELS_MOST, Label, Node, Slot, Table};

// A message of one item, with nothing in its unused room.
pub fn message(kind: Kind, item: Item, next: u8) -> Node {
    Node {
        kind,
        items: [Slot { item }; ITEMS_MOST],
        item_count: 1,
        next,
        ..Node::BLANK
    }
}

fn items_blank(items: &[Slot]) -> bool {
    items.iter().all(|slot| *slot == Slot::BLANK)
}

fn labels_blank(labels: &[Label]) -> bool {
    labels.iter().all(|label| *label == Label::BLANK)
}

// What a choice leaves unused.
fn message_part_blank(x: &Node) -> bool {
    x.item_count == 0 && x.next == 0 && items_blank(&x.items)
}

// What a message leaves unused.
fn choice_part_blank(x: &Node) -> bool {
    x.label_count == 0 && labels_blank(&x.labels)
}

fn message_blank(x: &Node) -> bool {
    let used = usize::from(x.item_count).min(ITEMS_MOST);
    choice_part_blank(x) && items_blank(&x.items[used..])
}

fn choice_blank(x: &Node) -> bool {
    let used = usize::from(x.label_count).min(LABELS_MOST);
    message_part_blank(x) && labels_blank(&x.labels[used..])
}

// Whether the unused room of a node is blank; of a node past the count all is unused.
fn node_blank(x: &Node, used: bool) -> bool {
    match x.kind {
        Kind::End => message_part_blank(x) && choice_part_blank(x),
        Kind::Receive | Kind::Send => used && message_blank(x),
        Kind::Branch | Kind::Choose => used && choice_blank(x),
    }
}

fn table_blank(t: &Table) -> bool {
    let count = usize::from(t.count);
    t.nodes
        .iter()
        .enumerate()
        .all(|(i, node)| node_blank(node, i < count))
}

// Whether all of it is blank, behind the name of what was made.
pub fn print_room(rt: &impl Print, name: &str, t: &Table) -> io::Result<()> {
    let blank = if table_blank(t) { "blank" } else { "not blank" };
    println!(rt; "{name}, unused room: {blank}")
}
