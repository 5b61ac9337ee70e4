// The most nodes that texts can have, in areas of just the sizes that are needed or one byte less, and rings of messages that meet in
// every pair.
use crate::show::{Asked, show_in};
use showing::text::Text;
use std::io;
use table::answers::Question;

// 3 nodes, and 128 of a dual: 768, 768, 1,536 and 2,322. A dual of 64 nodes with a session item has 128: the item's first message is 64 + 2,
// and the `end` behind 61 of them the last, 127.
fn dual(rt: &impl Print) -> io::Result<()> {
    let other = Text::<300>::of("B=?(C);end.C=")
        .times(61, "?();")
        .and("end.");
    let new = b"A = ![D]; end . D = ?(); D .";
    let asked = Asked::Texts(Question::IsCompatible, new, other.bytes());
    show_in::<768, 768, 1536, 2322>(rt, "dual of 128 nodes", asked)
}

// A ring of n messages: its name, the messages, and its name again.
fn ring(n: usize, message: &str) -> Text<400> {
    Text::of("A=").times(n, message).and("A.")
}

// 64 and 64 nodes: 8,192, 8,192, 16,384, and 24,594 for the line.
fn equal_rings(rt: &impl Print) -> io::Result<()> {
    let text = ring(64, "?();");
    let asked = Asked::Texts(Question::MayReplace, text.bytes(), text.bytes());
    show_in::<8192, 8192, 16384, 24594>(rt, "64 and 64 nodes", asked)?;
    show_in::<8192, 8192, 16384, 24593>(rt, "64 and 64 nodes, one byte less", asked)
}

// 64 and 63 have no common part, so each node of one meets each of the other.
fn rings(rt: &impl Print, name: &str, message: &str) -> io::Result<()> {
    let new = ring(64, message);
    let old = ring(63, message);
    let asked = Asked::Texts(Question::MayReplace, new.bytes(), old.bytes());
    show_in::<8192, 8192, 16384, 24594>(rt, name, asked)
}

pub fn cases(rt: &impl Print) -> io::Result<()> {
    dual(rt)?;
    equal_rings(rt)?;
    rings(rt, "64 and 63 nodes, turn 0 alone", "?();")?;
    rings(rt, "64 and 63 nodes, both turns", "![A];")
}
