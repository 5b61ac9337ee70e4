// What is read of a node: its kind, the counts and the continuation that its kind has, an item or a label at a position, and a label's
// bytes. Each function answers the definition of its name in `rules`, for any node and any name bytes, and asks nothing of its caller;
// `label_end` is plain arithmetic. Whoever asks for items and labels below their counts reads no unused room. It calls no other crate.
#![tactic(auto)]

ghost use Rattle.std.specs.Prelude.{◌≡◌, ◌+◌};
ghost use Rattle.rules.specs.Tables.{is_message, is_choice, item_count, label_count, continuation, item_at, label_at, spelling, spelling_at};

use table::{Item, Kind, Label, Node, Slot};

pub fn is_message(k: Kind) -> bool
    ensures { result ≡ is_message k }
{
    matches!(k, Kind::Receive | Kind::Send)
}

pub fn is_choice(k: Kind) -> bool
    ensures { result ≡ is_choice k }
{
    matches!(k, Kind::Branch | Kind::Choose)
}

pub fn item_count(x: &Node) -> usize
    ensures { result ≡ item_count x.now }
{
    if is_message(x.kind) {
        x.item_count.into()
    } else {
        0
    }
}

pub fn label_count(x: &Node) -> usize
    ensures { result ≡ label_count x.now }
{
    if is_choice(x.kind) {
        x.label_count.into()
    } else {
        0
    }
}

pub fn continuation(x: &Node) -> u8
    ensures { result ≡ continuation x.now }
{
    if is_message(x.kind) { x.next } else { 0 }
}

// The item at a position of the list; past the list's room the blank one.
pub fn item_at(x: &Node, i: usize) -> Item
    ensures { result ≡ item_at x.now i }
{
    x.items.get(i).copied().unwrap_or(Slot::BLANK).item
}

// The label at a position of the list; past the list's room the blank one.
pub fn label_at(x: &Node, i: usize) -> Label
    ensures { result ≡ label_at x.now i }
{
    x.labels.get(i).copied().unwrap_or(Label::BLANK)
}

// Where a label's bytes end, whether or not the name bytes reach so far.
pub fn label_end(l: Label) -> usize
    ensures { result ≡ l.at + l.len }
{
    usize::from(l.at) + usize::from(l.len)
}

// A label's bytes: the part of the name bytes that it claims, cut where they end.
pub fn spelling(names: &[u8], l: Label) -> &[u8]
    ensures { result.now ≡ spelling names.now l }
{
    let e = label_end(l).min(names.len());
    let at = usize::from(l.at).min(e);
    &names[at..e]
}

pub fn spelling_at<'a>(names: &'a [u8], x: &Node, i: usize) -> &'a [u8]
    ensures { result.now ≡ spelling_at x.now names.now i }
{
    spelling(names, label_at(x, i))
}
