// Texts that are too long, or too much alike, to be written out.
use crate::show::{show, show_places};
use showing::text::Text;
use std::io;

// In room for more than the longest text here.
pub type LongText = Text<4200>;

// The two letters of a definition's name: `aa` for 0, `ab` for 1, `ba` for 26.
fn named(text: LongText, k: usize) -> LongText {
    text.with(b'a' + (k / 26 % 26) as u8)
        .with(b'a' + (k % 26) as u8)
}

// A text, and definitions 0 to n - 1 behind it: of each its name, and what stands behind that.
pub fn defined(mut text: LongText, n: usize, behind: &str) -> LongText {
    for k in 0..n {
        text = named(text, k).and(behind);
    }
    text
}

// Definitions 0 to n - 1, each with the next one's name for its type: six bytes each.
pub fn chained(n: usize) -> LongText {
    let mut text = Text::of("");
    for k in 0..n {
        text = named(named(text, k).and("="), k + 1).and(".");
    }
    text
}

// One byte, len times.
pub fn show_all(rt: &impl Print, name: &str, b: u8, len: usize) -> io::Result<()> {
    show(rt, name, LongText::all(b, len).bytes())
}

// A text with blanks behind it, up to len bytes.
pub fn show_filled(rt: &impl Print, name: &str, text: &str, len: usize) -> io::Result<()> {
    show(rt, name, LongText::of(text).up_to(len).bytes())
}

// A text behind n blanks, with the places of its labels.
pub fn show_behind(rt: &impl Print, name: &str, n: usize, text: &str) -> io::Result<()> {
    show_places(rt, name, LongText::all(b' ', n).and(text).bytes())
}

// A part n times between two others.
pub fn show_repeated(
    rt: &impl Print,
    name: &str,
    before: &str,
    n: usize,
    part: &str,
    behind: &str,
) -> io::Result<()> {
    let text = LongText::of(before).times(n, part).and(behind);
    show(rt, name, text.bytes())
}

// One definition: what opens n times, what is inside, what closes n times.
pub fn show_nested(
    rt: &impl Print,
    name: &str,
    n: usize,
    opening: &str,
    inside: &str,
    closing: &str,
) -> io::Result<()> {
    let opened = LongText::of("A = ").times(n, opening).and(inside);
    show(rt, name, opened.times(n, closing).and(" .").bytes())
}
