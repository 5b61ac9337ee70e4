// The reader of types: it calls itself for items, labels and continuations, and writes what it finds as plain numbers into lent areas, from
// which the table is made at the end. No table goes through the calls.
#![tactic(auto)]

ghost use Rattle.std.specs.Prelude.{◌≡◌, ◌+◌, ◌*◌, ◌<◌, ◌≤◌, ltb, length};
ghost use Rattle.rules.specs.Words.{word_most};
ghost use Rattle.rules.specs.Notation.{Way};
ghost use Rattle.rules.specs.Numbering.{message_kind};
ghost use Rattle.rules.specs.Pairs.{kind_number};
ghost use Rattle.rules.specs.Numbers.{text_most, text_nodes_most, labels_most, brackets_most};
ghost use Rattle.rules.specs.Replies.{refusal};
ghost use Rattle.rules.proofs.Machine.{open_byte, close_byte};
ghost use Rattle.cursor.specs.Takes.{number};
ghost use Rattle.flat.specs.Flat.{room, list_from};
ghost use Rattle.type_reader.specs.Leaves.{Signed, Opened, Begun, NodeOpened, Used, Ended, begins_type, begins_item, ItemBegun, Labelled, stored_head, stored_label};
ghost use Rattle.type_reader.specs.Answers.{Ready, TokenReady, Sound, SoundOn, TypeRead, ItemsRead, ItemRead, LabelRead, LabelsRead, MessageSign, ChoiceSign};

use cursor::{Cursor, Symbol, Taken};
use flat::{A_SESSION, A_USE, COUNT, GOES_ON, LIST, NODE_ROOM, ROW, TEXT_MOST, find_word, word_at};
use table::answers::{Refusal, RefusalKind};
use table::{ITEMS_MOST, Kind, LABELS_MOST, Sort};
use words::WORD_MOST;

// "64 nodes in a text", "16 brackets `(`, `[`, `{` open at once"
pub const TEXT_NODES_MOST: usize = 64;

pub const BRACKETS_MOST: usize = 16;

// What was read, with the cursor behind it: of a type its link, of a list its count. Where it is an index it is widened by `as`: `usize::from` is no
// plainer, and each proof behind it would have to say that it is the same number.
#[derive(Clone, Copy)]
pub struct Past {
    pub value: u16,
    pub next: Cursor,
}

// What a text's types are written into: their nodes, and the place of each use of a name.
#[derive(Drop)]
pub struct Areas {
    pub nodes: [u16; TEXT_MOST],
    pub uses: [u16; TEXT_MOST],
}

// The refusal of the token t.
pub fn refusal(kind: RefusalKind, t: Taken) -> Refusal
    ensures { result ≡ refusal kind t.at }
{
    Refusal { kind, place: t.at }
}

// "word over 16 bytes"
pub fn too_long(len: usize) -> bool
    ensures { result ≡ ltb word_most len }
{
    WORD_MOST < len
}

// The symbol, or refusal 2.
pub fn sign(s: &[u8], c: Cursor, symbol: Symbol) -> Result<Cursor, Refusal>
    requires { c.at ≤ length s.now }
    ensures { Signed s.now c (number symbol) result }
{
    let t = c.take(s);
    if t.is(symbol) {
        Ok(t.next)
    } else {
        Err(refusal(RefusalKind::Unexpected, t))
    }
}

// The opening bracket b, where `deep` are open.
fn bracket(s: &[u8], c: Cursor, b: u8, deep: usize) -> Result<Cursor, Refusal>
    requires { c.at ≤ length s.now }
    ensures { Opened s.now c b deep result }
{
    let t = c.take(s);
    if !t.is(Symbol::Byte(b)) {
        return Err(refusal(RefusalKind::Unexpected, t));
    }
    if BRACKETS_MOST <= deep {
        return Err(refusal(RefusalKind::BracketTooMany, t));
    }
    Ok(t.next)
}

// The number of the node that begins at t.
fn begin_node(t: Taken) -> Result<Past, Refusal>
    requires { t.next.nodes ≤ text_nodes_most }
    ensures { Begun t result }
{
    let n = t.next.nodes;
    if TEXT_NODES_MOST <= n {
        return Err(refusal(RefusalKind::OneTooMany, t));
    }
    Ok(Past {
        value: n as u16,
        next: Cursor {
            nodes: n + 1,
            ..t.next
        },
    })
}

// The node whose sign is t, as far as its opening bracket, where `deep` are open: its number, and the cursor behind the bracket.
fn open_node(s: &[u8], t: Taken, opening: u8, deep: usize) -> Result<Past, Refusal>
    requires { (t.next.at ≤ length s.now) × (t.next.nodes ≤ text_nodes_most) }
    ensures { NodeOpened s.now t opening deep result }
{
    let begun = begin_node(t)?;
    let next = bracket(s, begun.next, opening, deep)?;
    Ok(Past {
        value: begun.value,
        next,
    })
}

// A name where a type stands: a use, which is kept by its place.
fn use_name(uses: &mut [u16; TEXT_MOST], t: Taken) -> Result<Past, Refusal>
    requires { (t.next.uses < text_most) × (t.at < text_most) × (length uses.old ≡ text_most) }
    ensures { Used t uses.old uses.new result }
{
    if too_long(t.len) {
        return Err(refusal(RefusalKind::WordTooLong, t));
    }
    let n = t.next.uses;
    uses[n] = t.at as u16;
    Ok(Past {
        value: (A_USE + n) as u16,
        next: Cursor {
            uses: n + 1,
            ..t.next
        },
    })
}

// A node's kind, its count and its continuation.
#[tactic(auto, using(crate::proofs::KindNumbers::kind_tag))]
fn store(nodes: &mut [u16; TEXT_MOST], node: usize, kind: Kind, n: u16, link: u16)
    requires { node < text_nodes_most }
    ensures { nodes.new ≡ stored_head nodes.old node (kind_number kind) n link }
{
    nodes[node * NODE_ROOM] = kind as u16;
    nodes[node * NODE_ROOM + COUNT] = n;
    nodes[node * NODE_ROOM + GOES_ON] = link;
}

fn read_end(nodes: &mut [u16; TEXT_MOST], t: Taken) -> Result<Past, Refusal>
    requires { (t.next.nodes ≤ text_nodes_most) × (length nodes.old ≡ text_most) }
    ensures { Ended t nodes.old nodes.new result }
{
    let begun = begin_node(t)?;
    store(nodes, begun.value as usize, Kind::End, 0, 0);
    Ok(begun)
}

// Whether a type begins with the byte.
#[tactic(auto, unfolding(crate::specs::Leaves::begins_type))]
fn begins_type(k: Symbol) -> bool
    ensures { result ≡ begins_type (number k) }
{
    matches!(k, Symbol::Byte(b'?' | b'!' | b'&' | b'+'))
}

// Whether an item begins with the token: a type's byte, a reserved word or a name.
#[tactic(auto, unfolding(crate::specs::Leaves::begins_item, crate::specs::Leaves::begins_type))]
fn begins_item(k: Symbol) -> bool
    ensures { result ≡ begins_item (number k) }
{
    begins_type(k) || matches!(k, Symbol::End | Symbol::Sort(_) | Symbol::Word)
}

// What the item is that begins at t, behind n others: a sort, or `None` where a type is to be read.
fn item(t: Taken, n: usize) -> Result<Option<Sort>, Refusal>
    ensures { ItemBegun t n result }
{
    if !begins_item(t.symbol) {
        return Err(refusal(RefusalKind::Unexpected, t));
    }
    if too_long(t.len) {
        return Err(refusal(RefusalKind::WordTooLong, t));
    }
    if ITEMS_MOST <= n {
        return Err(refusal(RefusalKind::OneTooMany, t));
    }
    match t.symbol {
        Symbol::Sort(sort) => Ok(Some(sort)),
        _ => Ok(None),
    }
}

// The label that is t, behind n others of its node.
fn label(
    s: &[u8],
    nodes: &[u16; TEXT_MOST],
    t: Taken,
    node: usize,
    n: usize,
) -> Result<Cursor, Refusal>
    requires { (node < text_nodes_most) × (n ≤ labels_most) × (length nodes.now ≡ text_most) }
    ensures { Labelled s.now nodes.now (node * room + list_from) t n result }
{
    if !t.is(Symbol::Word) {
        return Err(refusal(RefusalKind::Unexpected, t));
    }
    if too_long(t.len) {
        return Err(refusal(RefusalKind::WordTooLong, t));
    }
    if LABELS_MOST <= n {
        return Err(refusal(RefusalKind::OneTooMany, t));
    }
    let rows = &nodes[node * NODE_ROOM + LIST..];
    if find_word(s, rows, n, word_at(s, t.at, t.len)).is_some() {
        return Err(refusal(RefusalKind::LabelTwice, t));
    }
    Ok(t.next)
}

fn store_label(nodes: &mut [u16; TEXT_MOST], node: usize, n: usize, t: Taken, link: u16)
    requires { (node < text_nodes_most) × (n < labels_most) × (t.at ≤ text_most) × (t.len ≤ text_most) }
    ensures { nodes.new ≡ stored_label nodes.old node n t link }
{
    let at = node * NODE_ROOM + LIST + n * ROW;
    nodes[at] = t.at as u16;
    nodes[at + 1] = t.len as u16;
    nodes[at + 2] = link;
}

// The type whose first token is t, inside `deep` open brackets.
#[cycle(types)]
pub fn read_type(s: &[u8], areas: &mut Areas, t: Taken, deep: usize) -> Result<Past, Refusal>
    requires { TokenReady s.now areas.old.nodes areas.old.uses t × (deep ≤ brackets_most) }
    ensures sound { Sound s.now areas.new.nodes areas.new.uses t.at t.next.nodes result }
    ensures type_read { TypeRead s.now areas.old.nodes areas.old.uses areas.new.nodes areas.new.uses t deep result }
{
    match t.symbol {
        Symbol::Word => use_name(&mut areas.uses, t),
        Symbol::End => read_end(&mut areas.nodes, t),
        Symbol::Byte(b'?') => read_message(s, areas, t, deep, Kind::Receive),
        Symbol::Byte(b'!') => read_message(s, areas, t, deep, Kind::Send),
        Symbol::Byte(b'&') => read_choice(s, areas, t, deep, Kind::Branch),
        Symbol::Byte(b'+') => read_choice(s, areas, t, deep, Kind::Choose),
        _ => Err(refusal(RefusalKind::Unexpected, t)),
    }
}

// The brackets of a message.
fn brackets(kind: Kind) -> (u8, u8)
    ensures { (d : Way) → kind ≡ message_kind d → (result.0 ≡ open_byte d) × (result.1 ≡ close_byte d) }
{
    match kind {
        Kind::Send => (b'[', b']'),
        _ => (b'(', b')'),
    }
}

// The message whose sign is t.
#[cycle(types)]
fn read_message(
    s: &[u8],
    areas: &mut Areas,
    t: Taken,
    deep: usize,
    kind: Kind,
) -> Result<Past, Refusal>
    requires { TokenReady s.now areas.old.nodes areas.old.uses t × (deep ≤ brackets_most) × MessageSign t kind }
    ensures sound { Sound s.now areas.new.nodes areas.new.uses t.at t.next.nodes result }
    ensures type_read { TypeRead s.now areas.old.nodes areas.old.uses areas.new.nodes areas.new.uses t deep result }
{
    let (opening, closing) = brackets(kind);
    let opened = open_node(s, t, opening, deep)?;
    let node = opened.value as usize;
    let inner = deep + 1;
    let items = read_items(s, areas, opened.next, inner, node, closing)?;
    let c = sign(s, items.next, Symbol::Byte(b';'))?;
    let then = read_type(s, areas, c.take(s), deep)?;
    store(&mut areas.nodes, node, kind, items.value, then.value);
    Ok(Past {
        value: opened.value,
        next: then.next,
    })
}

// The items of a node, behind its opening bracket; the value is their count. They are read in a loop, so that only types inside types take
// stack.
#[cycle(types)]
fn read_items(
    s: &[u8],
    areas: &mut Areas,
    c: Cursor,
    deep: usize,
    node: usize,
    closing: u8,
) -> Result<Past, Refusal>
    requires { Ready s.now areas.old.nodes areas.old.uses c × (deep ≤ brackets_most) × (node < c.nodes) }
    ensures sound { Sound s.now areas.new.nodes areas.new.uses c.at c.nodes result }
    ensures items_read { (d : Way) → closing ≡ close_byte d → ItemsRead s.now areas.old.nodes areas.old.uses areas.new.nodes areas.new.uses d c deep node result }
{
    let mut t = c.take(s);
    if t.is(Symbol::Byte(closing)) {
        return Ok(Past {
            value: 0,
            next: t.next,
        });
    }
    let mut n = 0;
    // Not a `for`: each turn begins at the token that the one before it ends at.
    loop {
        let c1 = read_item(s, areas, t, deep, node, n)?;
        n += 1;
        let mark = c1.take(s);
        if mark.is(Symbol::Byte(closing)) {
            return Ok(Past {
                value: n as u16,
                next: mark.next,
            });
        }
        if !mark.is(Symbol::Byte(b',')) {
            return Err(refusal(RefusalKind::Unexpected, mark));
        }
        t = mark.next.take(s);
    }
}

// The item whose first token is t, behind n others of its node.
#[cycle(types)]
fn read_item(
    s: &[u8],
    areas: &mut Areas,
    t: Taken,
    deep: usize,
    node: usize,
    n: usize,
) -> Result<Cursor, Refusal>
    requires { TokenReady s.now areas.old.nodes areas.old.uses t × (deep ≤ brackets_most) × (node < t.next.nodes) }
    ensures sound { SoundOn s.now areas.new.nodes areas.new.uses t.at t.next.nodes result }
    ensures item_read { ItemRead s.now areas.old.nodes areas.old.uses areas.new.nodes areas.new.uses t deep node n result }
{
    let begun = item(t, n)?;
    let at = node * NODE_ROOM + LIST + n;
    match begun {
        Some(sort) => {
            areas.nodes[at] = sort as u16;
            Ok(t.next)
        }
        None => {
            let session = read_type(s, areas, t, deep)?;
            areas.nodes[at] = A_SESSION + session.value;
            Ok(session.next)
        }
    }
}

// The choice whose sign is t.
#[cycle(types)]
fn read_choice(
    s: &[u8],
    areas: &mut Areas,
    t: Taken,
    deep: usize,
    kind: Kind,
) -> Result<Past, Refusal>
    requires { TokenReady s.now areas.old.nodes areas.old.uses t × (deep ≤ brackets_most) × ChoiceSign t kind }
    ensures sound { Sound s.now areas.new.nodes areas.new.uses t.at t.next.nodes result }
    ensures type_read { TypeRead s.now areas.old.nodes areas.old.uses areas.new.nodes areas.new.uses t deep result }
{
    let opened = open_node(s, t, b'{', deep)?;
    let node = opened.value as usize;
    let labels = read_labels(s, areas, opened.next, deep + 1, node)?;
    store(&mut areas.nodes, node, kind, labels.value, 0);
    Ok(Past {
        value: opened.value,
        next: labels.next,
    })
}

// The labels of a node, behind its opening brace; the value is their count. They are read in a loop, so that only types inside types take
// stack.
#[cycle(types)]
fn read_labels(
    s: &[u8],
    areas: &mut Areas,
    c: Cursor,
    deep: usize,
    node: usize,
) -> Result<Past, Refusal>
    requires { Ready s.now areas.old.nodes areas.old.uses c × (deep ≤ brackets_most) × (node < c.nodes) }
    ensures sound { Sound s.now areas.new.nodes areas.new.uses c.at c.nodes result }
    ensures labels_read { LabelsRead s.now areas.old.nodes areas.old.uses areas.new.nodes areas.new.uses c deep node result }
{
    let mut from = c;
    let mut n = 0;
    // Not a `for`: each turn begins at the token that the one before it ends at.
    loop {
        let c1 = read_label(s, areas, from.take(s), deep, node, n)?;
        n += 1;
        let mark = c1.take(s);
        if mark.is(Symbol::Byte(b'}')) {
            return Ok(Past {
                value: n as u16,
                next: mark.next,
            });
        }
        if !mark.is(Symbol::Byte(b'|')) {
            return Err(refusal(RefusalKind::Unexpected, mark));
        }
        from = mark.next;
    }
}

// The label t, behind n others of its node, and its type.
#[cycle(types)]
fn read_label(
    s: &[u8],
    areas: &mut Areas,
    t: Taken,
    deep: usize,
    node: usize,
    n: usize,
) -> Result<Cursor, Refusal>
    requires { TokenReady s.now areas.old.nodes areas.old.uses t × (deep ≤ brackets_most) × (node < t.next.nodes) × (n ≤ labels_most) }
    ensures sound { SoundOn s.now areas.new.nodes areas.new.uses t.at t.next.nodes result }
    ensures label_read { LabelRead s.now areas.old.nodes areas.old.uses areas.new.nodes areas.new.uses t deep node n result }
{
    let c1 = label(s, &areas.nodes, t, node, n)?;
    let c2 = sign(s, c1, Symbol::Byte(b':'))?;
    let session = read_type(s, areas, c2.take(s), deep)?;
    store_label(&mut areas.nodes, node, n, t, session.value);
    Ok(session.next)
}
