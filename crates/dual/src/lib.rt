// The dual of a table. `dual` answers `dual_reply` of `rules` for any table and any name bytes, and asks nothing of its caller. What it
// makes is made node by node, from the table where it stands.
#![tactic(auto)]

ghost use Rattle.std.specs.Prelude.{◌≡◌, ◌≤◌};
ghost use Rattle.rules.specs.Numbers.{table_nodes_most};
ghost use Rattle.rules.specs.Tables.{continuation};
ghost use Rattle.rules.specs.Dual.{turned_kind, is_session, hands_over_at, hands_over, moved_item, moved_label, moved_items, moved_labels, moved_continuation, remade, turned_node, original_node, dual_nodes, dual_count};
ghost use Rattle.rules.specs.Replies.{dual_reply};
ghost use Rattle.dual.specs.Making.{ItemFits, LinkFits, ItemsFit, LabelsFit, NodeFits, NodesFit};

use blanks::{filled, refused};
use formed::well_formed;
use nodes::{is_message, item_at, item_count, label_at, label_count};
use table::answers::{Made, RefusalKind};
use table::{ITEMS_MOST, Item, Kind, LABELS_MOST, Label, NODES_MOST, Node, Slot, Table};

fn turned_kind(k: Kind) -> Kind
    ensures { result ≡ turned_kind k }
{
    match k {
        Kind::End => Kind::End,
        Kind::Receive => Kind::Send,
        Kind::Send => Kind::Receive,
        Kind::Branch => Kind::Choose,
        Kind::Choose => Kind::Branch,
    }
}

fn is_session(item: Item) -> bool
    ensures { result ≡ is_session item }
{
    matches!(item, Item::Session(_))
}

// Whether a node has a session item.
fn hands_over_at(x: &Node) -> bool
    ensures { result ≡ hands_over_at x.now }
{
    (0..item_count(x)).any(|i| is_session(item_at(x, i)))
}

// Whether any node has one, reached or not.
fn hands_over(t: &Table) -> bool
    requires { t.now.count ≤ table_nodes_most }
    ensures { result ≡ hands_over t.now }
{
    (0..usize::from(t.count)).any(|i| hands_over_at(&t.nodes[i]))
}

// An item, and a label, whose link is `by` more.
fn moved_item(by: u8, item: Item) -> Item
    requires { (by ≤ table_nodes_most) × ItemFits item }
    ensures { result ≡ moved_item by item }
{
    match item {
        Item::OfSort(_) => item,
        Item::Session(k) => Item::Session(k + by),
    }
}

fn moved_label(by: u8, l: Label) -> Label
    requires { (by ≤ table_nodes_most) × LinkFits l.to }
    ensures { result ≡ moved_label by l }
{
    Label { to: l.to + by, ..l }
}

fn moved_items(by: u8, x: &Node) -> [Slot; ITEMS_MOST]
    requires { (by ≤ table_nodes_most) × ItemsFit x.now }
    ensures { result ≡ moved_items by x.now }
{
    filled(
        Slot::BLANK,
        item_count(x),
        |i| Slot {
            item: moved_item(by, item_at(x, i)),
        },
    )
}

fn moved_labels(by: u8, x: &Node) -> [Label; LABELS_MOST]
    requires { (by ≤ table_nodes_most) × LabelsFit x.now }
    ensures { result ≡ moved_labels by x.now }
{
    filled(
        Label::BLANK,
        label_count(x),
        |i| moved_label(by, label_at(x, i)),
    )
}

fn moved_continuation(by: u8, x: &Node) -> u8
    requires { (by ≤ table_nodes_most) × LinkFits (continuation x.now) }
    ensures { result ≡ moved_continuation by x.now }
{
    if is_message(x.kind) { x.next + by } else { 0 }
}

// A node made anew with the kind `kind`: session items link `items_by` more, labels and the continuation `by` more. What of the node was
// not used is blank.
#[tactic(auto, unfolding(rules::specs::Dual::remade))]
fn remade(kind: Kind, items_by: u8, by: u8, x: &Node) -> Node
    requires { (items_by ≤ table_nodes_most) × (by ≤ table_nodes_most) × NodeFits x.now }
    ensures { result ≡ remade kind items_by by x.now }
{
    Node {
        kind,
        items: moved_items(items_by, x),
        item_count: item_count(x) as u8,
        labels: moved_labels(by, x),
        label_count: label_count(x) as u8,
        next: moved_continuation(by, x),
    }
}

// "continuations and choices go on as duals"; "a session item is not turned round": it links to the original, which is n further.
fn turned_node(n: u8, x: &Node) -> Node
    requires { (n ≤ table_nodes_most) × NodeFits x.now }
    ensures { result ≡ turned_node n x.now }
{
    remade(turned_kind(x.kind), n, 0, x)
}

// "the originals link among themselves"
fn original_node(n: u8, x: &Node) -> Node
    requires { (n ≤ table_nodes_most) × NodeFits x.now }
    ensures { result ≡ original_node n x.now }
{
    remade(x.kind, n, n, x)
}

// "A dual table of n nodes without session items has n nodes"; "With any session item it has 2n"
fn dual_count(both: bool, n: u8) -> usize
    ensures { result ≡ dual_count both n }
{
    let count = usize::from(n);
    if both { count + count } else { count }
}

// "the turned nodes first, then the originals in order", with the originals or without
fn dual_nodes(t: &Table, both: bool) -> [Node; NODES_MOST]
    requires { NodesFit t.now × (dual_count both t.now.count ≤ table_nodes_most) }
    ensures { result ≡ dual_nodes both t.now }
{
    let n = t.count;
    let first = usize::from(n);
    filled(Node::BLANK, dual_count(both, n), |i| {
        if i < first {
            turned_node(n, &t.nodes[i])
        } else {
            original_node(n, &t.nodes[i - first])
        }
    })
}

// The dual of a table, or 10 at 1, or 13 at its node count.
pub fn dual(t: Table, names: &[u8]) -> Made
    ensures { result ≡ dual_reply t names.now }
{
    if !well_formed(t, names) {
        return refused(RefusalKind::NotWellFormed, 1);
    }
    let both = hands_over(&t);
    let n = usize::from(t.count);
    let count = dual_count(both, t.count);
    if NODES_MOST < count {
        return refused(RefusalKind::DualTooLarge, n);
    }
    Made {
        table: Table {
            nodes: dual_nodes(&t, both),
            count: count as u8,
            start: t.start,
        },
        answer: Ok(()),
    }
}
