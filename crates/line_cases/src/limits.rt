// "4,096 bytes, 64 nodes, 16 labels, 4 items and 16 open brackets pass; one more does not." The same holds of 96 definitions and of words of
// 16 bytes. What passes is held against a small text, each of the two as new and as old.
use crate::lists::{texts, verdicts};
use crate::show::show_beside;
use showing::text::Text;
use std::io;

// A text with blanks behind it, up to len bytes. The last one is the longest line of a refusal.
fn bytes(rt: &impl Print) -> io::Result<()> {
    for (name, text, len) in [
        ("4,096 bytes", "A = end .", 4096),
        ("4,097 bytes", "A = end .", 4097),
        ("4,096 bytes and no full stop", "A = end", 4096),
    ] {
        let filled = Text::<4097>::of(text).up_to(len);
        show_beside(rt, name, filled.bytes(), "A = end .")?;
    }
    Ok(())
}

fn labels_and_items(rt: &impl Print) -> io::Result<()> {
    verdicts(
        rt,
        "16 labels: A = +{a:A|b:A|c:A|d:A|e:A|f:A|g:A|h:A|i:A|j:A|k:A|l:A|m:A|n:A|o:A|p:A} . / B = +{p:B|o:B|n:B|m:B|l:B|k:B|j:B|i:B|h:B|g:B|f:B|e:B|d:B|c:B|b:B|a:B} .\n\
        4 items: A = ?(void,string,float,boolean); end . / B = ?(void,string,float,boolean); end .\n\
        4 items, all sessions: A = ![A,A,A,A]; A . / B = ![B,B,B,B]; B .\n",
    )?;
    texts(
        rt,
        "17 labels: A = +{a:A|b:A|c:A|d:A|e:A|f:A|g:A|h:A|i:A|j:A|k:A|l:A|m:A|n:A|o:A|p:A|q:A} .\n\
        5 items: A = ?(void,string,float,boolean,void); end .\n\
        5 items, all sessions: A = ![A,A,A,A,A]; A .\n",
    )
}

fn words(rt: &impl Print) -> io::Result<()> {
    verdicts(
        rt,
        "name of 16 bytes: abcdefghijklmnop = ?(abcdefghijklmnop); end . / B = ?(B); end .\n\
        label of 16 bytes: A = +{abcdefghijklmnop: A} . / B = +{abcdefghijklmnop: B} .\n\
        labels that differ in the 16th byte: A = +{abcdefghijklmno1: A} . / B = +{abcdefghijklmno2: B} .\n",
    )?;
    texts(
        rt,
        "name of 17 bytes: abcdefghijklmnopq = end .\n\
        used name of 17 bytes: A = abcdefghijklmnopq .\n\
        label of 17 bytes: A = +{abcdefghijklmnopq: A} .\n",
    )
}

// One definition: what opens n times, the name A, and what closes n times; held against another text. A 17th bracket of two bytes each
// stands at 4 + 16 * 2 + 1, of four bytes each at 4 + 16 * 4 + 1. With `[` each node is met in both turns.
fn brackets(rt: &impl Print) -> io::Result<()> {
    for (name, n, opening, closing, other) in [
        ("16 open (", 16, "?(", ");A", "B = ?(B); B ."),
        ("17 open (", 17, "?(", ");A", "B = ?(B); B ."),
        ("16 open [", 16, "![", "];A", "B = ![B]; B ."),
        ("17 open [", 17, "![", "];A", "B = ![B]; B ."),
        ("16 open {", 16, "+{a:", "}", "B = +{a: B} ."),
        ("17 open {", 17, "+{a:", "}", "B = +{a: B} ."),
    ] {
        let opened = Text::<160>::of("A = ").times(n, opening).and("A");
        let closed = opened.times(n, closing).and(" .");
        show_beside(rt, name, closed.bytes(), other)?;
    }
    Ok(())
}

// Messages in a row, of four bytes each behind the first two: a 65th node stands at 2 + 64 * 4.
fn nodes(rt: &impl Print) -> io::Result<()> {
    for (name, n, behind) in [
        ("64 nodes in a ring", 64, "A."),
        ("64 nodes in a row", 63, "end."),
        ("65 nodes in a row", 64, "end."),
    ] {
        let text = Text::<300>::of("A=").times(n, "?();").and(behind);
        show_beside(rt, name, text.bytes(), "B = ?(); B .")?;
    }
    Ok(())
}

// `S` and n definitions of five bytes each, all with S for their type: of each its name, two letters (`aa` for 0, `ba` for 1, `ab` for 26),
// and `=S.` behind it.
fn defined(n: usize) -> Text<500> {
    let mut text = Text::of("S=end.");
    for k in 0..n {
        let first = b'a' + (k % 26) as u8;
        let second = b'a' + (k / 26 % 26) as u8;
        text = text.with(first).with(second).and("=S.");
    }
    text
}

// A 97th in all stands at 6 + 95 * 5.
fn definitions(rt: &impl Print) -> io::Result<()> {
    show_beside(rt, "96 definitions", defined(95).bytes(), "A = end .")?;
    show_beside(rt, "97 definitions", defined(96).bytes(), "A = end .")
}

pub fn cases(rt: &impl Print) -> io::Result<()> {
    bytes(rt)?;
    labels_and_items(rt)?;
    words(rt)?;
    brackets(rt)?;
    nodes(rt)?;
    definitions(rt)
}
