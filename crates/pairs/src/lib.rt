// Two nodes beside each other: what is wrong with them, and where their steps lead. x is the left node, with its name bytes xs, and y the
// right one, with ys. Nodes come by reference and tables not at all, so that a search copies neither. Labels are compared where they stand
// in the name bytes, by the crate `words`.
#![tactic(auto)]

ghost use Rattle.std.specs.Prelude.{true, false, not, Some, ◌≡◌, ◌<◌, ◌≤◌};
ghost use Rattle.rules.specs.Basics.{same};
ghost use Rattle.rules.specs.Numbers.{items_most, labels_most};
ghost use Rattle.rules.specs.Tables.{item_count, item_at, label_count, spelling};
ghost use Rattle.rules.specs.Pairs.{reason, detail, kind_number, items_agree, by_chooser, into_item, message_step, exchanged};
ghost use Rattle.pairs.specs.Beside.{Listed, ListOnce, spelled, FirstBetween, Covers, Compares, onward, StepsAs, ChoosesAs, StepsBelow};

use nodes::{continuation, is_message, item_at, item_count, label_at, label_count, spelling};
use table::answers::Mismatch;
use table::{Item, Kind, LABELS_MOST, Label, Node};
use words::same_bytes;

// "then 4 for the continuation"
const CONTINUATION_STEP: usize = 4;

// "with turn 0 or 1"
pub const TURNS: usize = 2;

// "23: a chosen label is missing"
pub const LABEL_MISSING: usize = 23;

// Where a step leads: to a node on the left and one on the right, and whether left and right then change places.
#[derive(Clone, Copy, Debug, PartialEq, Eq)]
pub struct Onward {
    pub left: u8,
    pub right: u8,
    pub turns: bool,
}

// `end`, `?`, `!`, `&` and `+`, from 0 on. Kinds are compared by `==`; the number stays as a promise of its own (docs/PROMISES.md).
pub fn kind_number(k: Kind) -> usize
    ensures { result ≡ kind_number k }
{
    k as usize
}

fn items_agree(a: Item, b: Item) -> bool
    ensures { result ≡ items_agree a b }
{
    match (a, b) {
        (Item::OfSort(s), Item::OfSort(t)) => s == t,
        (Item::Session(_), Item::Session(_)) => true,
        _ => false,
    }
}

// The first position at which the items of x and y do not agree.
fn first_unlike(x: &Node, y: &Node) -> Option<usize>
    requires { item_count x.now ≤ items_most }
    ensures { FirstBetween 0 (item_count x.now) (λ i. not (items_agree (item_at x.now i) (item_at y.now i))) result }
{
    // Not `find`: with it the search of messages took a twentieth longer.
    for i in 0..item_count(x) {
        if !items_agree(x.items[i].item, y.items[i].item) {
            return Some(i);
        }
    }
    None
}

// Whether a label is the word w. Not inlined: comparing bytes is long code, and in the search of a list it cost a fifth of the whole time.
#[inline(never)]
fn is_spelled(w: &[u8], label: Label, names: &[u8]) -> bool
    ensures { result ≡ same w.now (spelling names.now label) }
{
    same_bytes(w, spelling(names, label))
}

// The first position from `low` on and below `high` at which the list has the label w.
fn find_between(
    w: &[u8],
    labels: &[Label; LABELS_MOST],
    names: &[u8],
    low: usize,
    high: usize,
) -> Option<usize>
    requires { high ≤ labels_most }
    ensures { FirstBetween low high (λ j. same w.now (spelled labels.now names.now j)) result }
{
    (low..high).find(|&j| is_spelled(w, labels[j], names))
}

// Where a list of `count` labels has the label w: looked for from the position `from` on and then round, since most lists have one order. As
// a label stands once in a list, it does not matter where the search starts. Of the other node the list alone is handed on.
fn find_label(
    w: &[u8],
    labels: &[Label; LABELS_MOST],
    count: usize,
    names: &[u8],
    from: usize,
) -> Option<usize>
    requires { ListOnce labels.now count names.now }
    ensures { FirstBetween 0 count (λ j. same w.now (spelled labels.now names.now j)) result }
{
    let start = from.min(count);
    let behind = find_between(w, labels, names, start, count);
    behind.or_else(|| find_between(w, labels, names, 0, start))
}

// Looks for each label of the chooser x in the list of y, and keeps where it stands.
fn cover(x: &Node, xs: &[u8], y: &Node, ys: &[u8]) -> Result<[u8; LABELS_MOST], Mismatch>
    requires { Listed xs.now x.now × Listed ys.now y.now }
    ensures { Covers x.now xs.now y.now ys.now result }
{
    let other = label_count(y);
    let mut places = [0; LABELS_MOST];
    for i in 0..label_count(x) {
        let w = spelling(xs, x.labels[i]);
        let at = find_label(w, &y.labels, other, ys, i).ok_or(Mismatch::Label(i))?;
        places[i] = at as u8;
    }
    Ok(places)
}

// "for `&` the left lists and the right must have them": whether the left one chooses.
pub fn left_chooses(k: Kind) -> bool
    ensures { result ≡ by_chooser k true false }
{
    k == Kind::Branch
}

// The first reason that applies to two nodes; where none does, the position in the other list of each label of the chooser.
pub fn compare(x: &Node, xs: &[u8], y: &Node, ys: &[u8]) -> Result<[u8; LABELS_MOST], Mismatch>
    requires { Listed xs.now x.now × Listed ys.now y.now }
    ensures { Compares x.now xs.now y.now ys.now result }
{
    if x.kind != y.kind {
        return Err(Mismatch::Kinds);
    }
    if item_count(x) != item_count(y) {
        return Err(Mismatch::Counts);
    }
    if let Some(i) = first_unlike(x, y) {
        return Err(Mismatch::Item(i));
    }
    if left_chooses(x.kind) {
        cover(x, xs, y, ys)
    } else {
        cover(y, ys, x, xs)
    }
}

// The number and the detail of each case; where nothing is wrong both are 0.
pub fn reason(wrong: Option<Mismatch>) -> usize
    ensures { result ≡ reason wrong }
{
    match wrong {
        None => 0,
        Some(Mismatch::Kinds) => 20,
        Some(Mismatch::Counts) => 21,
        Some(Mismatch::Item(_)) => 22,
        Some(Mismatch::Label(_)) => LABEL_MISSING,
    }
}

pub fn detail(wrong: Option<Mismatch>) -> usize
    ensures { result ≡ detail wrong }
{
    match wrong {
        None | Some(Mismatch::Kinds | Mismatch::Counts) => 0,
        Some(Mismatch::Item(i) | Mismatch::Label(i)) => i,
    }
}

fn into_item(a: Item, b: Item, turns: bool) -> Option<Onward>
    ensures { onward result ≡ into_item a b turns }
{
    match (a, b) {
        (Item::Session(left), Item::Session(right)) => Some(Onward { left, right, turns }),
        _ => None,
    }
}

#[tactic(auto, unfolding(rules::specs::Pairs::message_step))]
fn message_step(x: &Node, y: &Node, turns: bool, s: usize) -> Option<Onward>
    ensures { onward result ≡ message_step x.now y.now turns s }
{
    if s < item_count(x) {
        into_item(item_at(x, s), item_at(y, s), turns)
    } else if s == CONTINUATION_STEP {
        Some(Onward {
            left: continuation(x),
            right: continuation(y),
            turns: false,
        })
    } else {
        None
    }
}

// x is the chooser, and `places` has where its labels stand in the list of y.
#[tactic(auto, unfolding(rules::specs::Pairs::choice_step))]
fn choice_step(x: &Node, y: &Node, places: &[u8; LABELS_MOST], s: usize) -> Option<Onward>
    requires { s < labels_most }
    ensures { ChoosesAs x.now y.now places.now s result }
{
    if label_count(x) <= s {
        return None;
    }
    Some(Onward {
        left: label_at(x, s).to,
        right: label_at(y, usize::from(places[s])).to,
        turns: false,
    })
}

fn exchanged(o: Onward) -> Onward
    ensures { onward (Some result) ≡ exchanged (onward (Some o)) }
{
    Onward {
        left: o.right,
        right: o.left,
        turns: o.turns,
    }
}

// Where step s of two nodes leads that `compare` found nothing wrong with, and the places that it found.
#[tactic(auto, unfolding(rules::specs::Pairs::step_of))]
pub fn step(x: &Node, y: &Node, places: &[u8; LABELS_MOST], s: usize) -> Option<Onward>
    requires { s < labels_most }
    ensures { StepsAs x.now y.now places.now s result }
{
    match x.kind {
        Kind::End => None,
        Kind::Receive => message_step(x, y, false, s),
        Kind::Send => message_step(x, y, true, s),
        Kind::Branch => choice_step(x, y, places, s),
        Kind::Choose => choice_step(y, x, places, s).map(exchanged),
    }
}

// A number that no step of the two nodes has, and none has a higher one.
#[tactic(auto, unfolding(rules::specs::Pairs::step_of, rules::specs::Pairs::message_step, rules::specs::Pairs::choice_step))]
pub fn step_limit(x: &Node, y: &Node) -> usize
    requires { (item_count x.now ≤ items_most) × (label_count x.now ≤ labels_most) × (label_count y.now ≤ labels_most) }
    ensures { StepsBelow x.now y.now result }
{
    if is_message(x.kind) {
        CONTINUATION_STEP + 1
    } else if left_chooses(x.kind) {
        label_count(x)
    } else {
        label_count(y)
    }
}
