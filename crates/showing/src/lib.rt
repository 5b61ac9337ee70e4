// What the programs that run cases share. Here, how they print what was made: of a table the start and then each node in order, its sign,
// its items or labels, and where they lead (`>`); behind a message's items follows where it goes on. Of a refusal number and place.
#![tactic(auto)]

pub mod room;
pub mod rubbish;
pub mod text;

use std::fmt;
use table::answers::Made;
use table::{ITEMS_MOST, Item, Kind, LABELS_MOST, Label, NODES_MOST, Node, Table};

// Something of a table, with the table's name bytes; where `places` is true, each label with its place (`@`).
#[derive(Clone, Copy)]
pub struct Shown<'a, T> {
    pub what: &'a T,
    pub names: &'a [u8],
    pub places: bool,
}

impl<'a, T> Shown<'a, T> {
    // A part of it, with the same name bytes.
    fn part<U>(&self, what: &'a U) -> Shown<'a, U> {
        Shown {
            what,
            names: self.names,
            places: self.places,
        }
    }
}

impl fmt::Display for Shown<'_, Item> {
    fn fmt<W: fmt::Write>(&self, f: &mut fmt::Formatter<W>) -> fmt::Result {
        match self.what {
            Item::OfSort(sort) => write!(f, "{sort}"),
            Item::Session(to) => write!(f, ">{to}"),
        }
    }
}

// A label's bytes are a part of the name bytes.
impl fmt::Display for Shown<'_, Label> {
    fn fmt<W: fmt::Write>(&self, f: &mut fmt::Formatter<W>) -> fmt::Result {
        let Label { at, len, to } = *self.what;
        let start = usize::from(at);
        match self.names.get(start..start + usize::from(len)) {
            Some(spelling) => write!(f, "{}", spelling.escape_ascii())?,
            None => f.write_str("outside")?,
        }
        if self.places {
            write!(f, "@{at}")?;
        }
        write!(f, ">{to}")
    }
}

impl Shown<'_, Node> {
    fn items<W: fmt::Write>(&self, f: &mut fmt::Formatter<W>) -> fmt::Result {
        let count = usize::from(self.what.item_count);
        for slot in self.what.items.iter().take(count) {
            write!(f, " {}", self.part(&slot.item))?;
        }
        if ITEMS_MOST < count {
            f.write_str(" and more")?;
        }
        write!(f, ">{}", self.what.next)
    }

    fn labels<W: fmt::Write>(&self, f: &mut fmt::Formatter<W>) -> fmt::Result {
        let count = usize::from(self.what.label_count);
        for label in self.what.labels.iter().take(count) {
            write!(f, " {}", self.part(label))?;
        }
        if LABELS_MOST < count {
            f.write_str(" and more")?;
        }
        Ok(())
    }
}

// A node: its sign, and then the items and the continuation of a message, or the labels of a choice.
impl fmt::Display for Shown<'_, Node> {
    fn fmt<W: fmt::Write>(&self, f: &mut fmt::Formatter<W>) -> fmt::Result {
        let kind = self.what.kind;
        write!(f, "{kind}")?;
        match kind {
            Kind::End => Ok(()),
            Kind::Receive | Kind::Send => self.items(f),
            Kind::Branch | Kind::Choose => self.labels(f),
        }
    }
}

impl fmt::Display for Shown<'_, Table> {
    fn fmt<W: fmt::Write>(&self, f: &mut fmt::Formatter<W>) -> fmt::Result {
        let t = self.what;
        let count = usize::from(t.count);
        write!(f, "ok, start {}", t.start)?;
        for (i, node) in t.nodes.iter().take(count).enumerate() {
            let between = if i == 0 { ", " } else { "; " };
            write!(f, "{between}{}", self.part(node))?;
        }
        if NODES_MOST < count {
            f.write_str(" and more")?;
        }
        Ok(())
    }
}

// "Beside a refusal the table has no nodes and start 0."
fn beside<W: fmt::Write>(t: &Table, f: &mut fmt::Formatter<W>) -> fmt::Result {
    if t.count != 0 {
        f.write_str(", with nodes")?;
    }
    if t.start != 0 {
        f.write_str(", with a start")?;
    }
    Ok(())
}

// What was made of a text or a table.
impl fmt::Display for Shown<'_, Made> {
    fn fmt<W: fmt::Write>(&self, f: &mut fmt::Formatter<W>) -> fmt::Result {
        let t = &self.what.table;
        match self.what.answer {
            Ok(()) => write!(f, "{}", self.part(t)),
            Err(refusal) => {
                write!(f, "{refusal}")?;
                beside(t, f)
            }
        }
    }
}
