// Whether a table is well formed with its name bytes. `well_formed` answers the definition of its name in `rules`, for any table and
// any bytes, and asks nothing of its caller. Nodes are read where they stand in the table, one at a time, through the crate `nodes`;
// labels are compared, and judged as words, by the crate `words`, where they stand in the name bytes.
#![tactic(auto)]

ghost use Rattle.std.specs.Prelude.{◌≡◌};
ghost use Rattle.rules.specs.Formed.{item_formed, label_formed, label_new, message_formed, choice_formed, node_formed, well_formed};

use nodes::{
    continuation, item_at, item_count, label_at, label_count, label_end, spelling, spelling_at,
};
use table::{ITEMS_MOST, Item, Kind, LABELS_MOST, Label, NODES_MOST, Node, Table};
use words::{may_name, same_bytes};

fn item_formed(n: u8, item: Item) -> bool
    ensures { result ≡ item_formed n item }
{
    match item {
        Item::OfSort(_) => true,
        Item::Session(k) => k < n,
    }
}

fn message_formed(n: u8, x: &Node) -> bool
    ensures { result ≡ message_formed n x.now }
{
    let count = item_count(x);
    count <= ITEMS_MOST && continuation(x) < n && (0..count).all(|i| item_formed(n, item_at(x, i)))
}

#[tactic(auto, unfolding(rules::specs::Formed::label_formed))]
fn label_formed(n: u8, names: &[u8], l: Label) -> bool
    ensures { result ≡ label_formed n names.now l }
{
    label_end(l) <= names.len() && l.to < n && may_name(spelling(names, l))
}

// Whether label i is none of those before it.
fn label_new(names: &[u8], x: &Node, i: usize) -> bool
    ensures { result ≡ label_new x.now names.now i }
{
    let name = spelling_at(names, x, i);
    (0..i).all(|j| !same_bytes(name, spelling_at(names, x, j)))
}

fn choice_formed(n: u8, names: &[u8], x: &Node) -> bool
    ensures { result ≡ choice_formed n names.now x.now }
{
    let count = label_count(x);
    (1..=LABELS_MOST).contains(&count)
        && (0..count).all(|i| label_formed(n, names, label_at(x, i)))
        && (0..count).all(|i| label_new(names, x, i))
}

#[tactic(auto, unfolding(rules::specs::Formed::node_formed))]
fn node_formed(n: u8, names: &[u8], x: &Node) -> bool
    ensures { result ≡ node_formed n names.now x.now }
{
    match x.kind {
        Kind::End => true,
        Kind::Receive | Kind::Send => message_formed(n, x),
        Kind::Branch | Kind::Choose => choice_formed(n, names, x),
    }
}

pub fn well_formed(t: Table, names: &[u8]) -> bool
    ensures { result ≡ well_formed t names.now }
{
    let n = t.count;
    let count = usize::from(n);
    (1..=NODES_MOST).contains(&count)
        && t.start < n
        && t.nodes[..count].iter().all(|x| node_formed(n, names, x))
}
