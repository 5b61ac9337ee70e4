// The table, made from the numbers that the readers wrote (see the crate `flat`). Each function answers the definition of its name in
// specs/Making.antt; that they make the text's table is proved in proofs/FromText.antt.
#![tactic(auto)]

ghost use Rattle.std.specs.Prelude.{◌≡◌, ◌+◌, ◌<◌};
ghost use Rattle.rules.specs.Numbers.{text_most, text_nodes_most};
ghost use Rattle.flat.specs.Flat.{a_session};
ghost use Rattle.table_maker.specs.Making.{sort_of, kind_of, node_of, slot_from, label_from, items_from, labels_from, message_from, choice_from, node_from, table_from, count_number};
ghost use Rattle.table_maker.specs.Making.{links_end, Owned, ItemsOk, LabelOk, MessageOk, LabelsOk, RowOk, TableOk};

use blanks::filled;
use flat::{A_SESSION, A_USE, COUNT, DEFINITIONS_MOST, GOES_ON, LIST, NODE_ROOM, ROW, TEXT_MOST};
use table::{ITEMS_MOST, Item, Kind, LABELS_MOST, Label, NODES_MOST, Node, Slot, Sort, Table};

// The sort of a number, and the kind of one.
// No `From`: that the last one stands for every number behind it holds of what the readers write, and of no other numbers.
#[tactic(auto, unfolding(crate::specs::Making::sort_of))]
fn sort_of(k: u16) -> Sort
    ensures { result ≡ sort_of k }
{
    match k {
        0 => Sort::String,
        1 => Sort::Float,
        2 => Sort::Boolean,
        _ => Sort::Void,
    }
}

#[tactic(auto, unfolding(crate::specs::Making::kind_of))]
fn kind_of(k: u16) -> Kind
    ensures { result ≡ kind_of k }
{
    match k {
        0 => Kind::End,
        1 => Kind::Receive,
        2 => Kind::Send,
        3 => Kind::Branch,
        _ => Kind::Choose,
    }
}

// The numbers that the readers wrote: those of the nodes, the definition that each use of a name has, and the node that each definition
// leads to.
#[derive(Clone, Copy)]
struct Numbers<'a> {
    nodes: &'a [u16; TEXT_MOST],
    owners: &'a [u8; TEXT_MOST],
    ends: &'a [u8; DEFINITIONS_MOST],
    ghost owned: { Owned owners.now },
}

impl Numbers<'_> {
    // The node that a link leads to: the node of that number, or where the definition leads that the use of that number names.
    #[tactic(auto, unfolding(crate::specs::Making::node_of))]
    fn node_of(&self, link: usize) -> u8
        requires { link < links_end }
        ensures { result ≡ node_of self.now.owners.now self.now.ends.now link }
    {
        if link < A_USE {
            link as u8
        } else {
            self.ends[usize::from(self.owners[link - A_USE])]
        }
    }

    // An item, from its number.
    #[tactic(auto, unfolding(crate::specs::Making::slot_from))]
    fn slot_from(&self, k: u16) -> Slot
        requires { k < a_session + links_end }
        ensures { result ≡ slot_from self.now.owners.now self.now.ends.now k }
    {
        let item = if k < A_SESSION {
            Item::OfSort(sort_of(k))
        } else {
            Item::Session(self.node_of(usize::from(k - A_SESSION)))
        };
        Slot { item }
    }

    // The first n items of node k.
    fn items_from(&self, k: usize, n: usize) -> [Slot; ITEMS_MOST]
        requires { (k < text_nodes_most) × ItemsOk self.now.nodes.now k n }
        ensures { result ≡ items_from self.now.owners.now self.now.ends.now self.now.nodes.now k n }
    {
        filled(
            Slot::BLANK,
            n,
            |i| self.slot_from(self.nodes[k * NODE_ROOM + LIST + i]),
        )
    }

    // The label whose row begins at `at`.
    fn label_from(&self, at: usize) -> Label
        requires { (at + 2 < text_most) × LabelOk self.now.nodes.now at }
        ensures { result ≡ label_from self.now.owners.now self.now.ends.now self.now.nodes.now at }
    {
        Label {
            at: self.nodes[at],
            len: self.nodes[at + 1] as u8,
            to: self.node_of(usize::from(self.nodes[at + 2])),
        }
    }

    // The first n labels of node k.
    fn labels_from(&self, k: usize, n: usize) -> [Label; LABELS_MOST]
        requires { (k < text_nodes_most) × LabelsOk self.now.nodes.now k n }
        ensures { result ≡ labels_from self.now.owners.now self.now.ends.now self.now.nodes.now k n }
    {
        filled(
            Label::BLANK,
            n,
            |i| self.label_from(k * NODE_ROOM + LIST + i * ROW),
        )
    }

    // Node k, where it is a message, and where it is a choice.
    fn message_from(&self, k: usize) -> Node
        requires { (k < text_nodes_most) × MessageOk self.now.nodes.now k }
        ensures { result ≡ message_from self.now.owners.now self.now.ends.now self.now.nodes.now k }
    {
        let n = self.nodes[k * NODE_ROOM + COUNT];
        Node {
            kind: kind_of(self.nodes[k * NODE_ROOM]),
            items: self.items_from(k, n.into()),
            item_count: n as u8,
            next: self.node_of(usize::from(self.nodes[k * NODE_ROOM + GOES_ON])),
            ..Node::BLANK
        }
    }

    fn choice_from(&self, k: usize) -> Node
        requires { (k < text_nodes_most) × LabelsOk self.now.nodes.now k (count_number self.now.nodes.now k) }
        ensures { result ≡ choice_from self.now.owners.now self.now.ends.now self.now.nodes.now k }
    {
        let n = self.nodes[k * NODE_ROOM + COUNT];
        Node {
            kind: kind_of(self.nodes[k * NODE_ROOM]),
            labels: self.labels_from(k, n.into()),
            label_count: n as u8,
            ..Node::BLANK
        }
    }

    // Node k.
    fn node_from(&self, k: usize) -> Node
        requires { (k < text_nodes_most) × RowOk self.now.nodes.now k }
        ensures { result ≡ node_from self.now.owners.now self.now.ends.now self.now.nodes.now k }
    {
        match kind_of(self.nodes[k * NODE_ROOM]) {
            Kind::End => Node::BLANK,
            Kind::Receive | Kind::Send => self.message_from(k),
            Kind::Branch | Kind::Choose => self.choice_from(k),
        }
    }
}

// The table of n nodes. "the first definition gives the start"
// It takes what `Numbers` holds one by one: docs/PROMISES.md names it, and what it asks.
#[tactic(auto, unfolding(crate::specs::Making::table_from))]
pub fn table_from(
    nodes: &[u16; TEXT_MOST],
    n: usize,
    owners: &[u8; TEXT_MOST],
    ends: &[u8; DEFINITIONS_MOST],
) -> Table
    requires { TableOk nodes.now owners.now n }
    ensures { result ≡ table_from owners.now ends.now nodes.now n }
{
    let numbers = Numbers {
        nodes,
        owners,
        ends,
    };
    Table {
        nodes: filled(Node::BLANK, n, |k| numbers.node_from(k)),
        count: n as u8,
        start: ends[0],
    }
}
