// Words: "a letter, then letters, digits or underscores (ASCII), 1 to 16 bytes, case counted", and those that are reserved.
use crate::show::{show, show_lines};
use crate::texts::LongText;
use std::io;

// Words, each in each place where a word may stand.
fn places(rt: &impl Print, words: &[&str]) -> io::Result<()> {
    for word in words {
        for (which, before, behind) in [
            ("as a name", "", " = end ."),
            ("as a label", "A = +{", ": A} ."),
            ("as a type", "A = ", " ."),
            ("as an item", "A = ?(", "); A ."),
            ("going on", "A = ?(); ", " ."),
        ] {
            let text = LongText::of(before).and(word).and(behind);
            show(rt, format_args!("{word} {which}"), text.bytes())?;
        }
    }
    Ok(())
}

fn reserved(rt: &impl Print) -> io::Result<()> {
    places(rt, &["end", "string", "float", "boolean", "void"])
}

fn not_reserved(rt: &impl Print) -> io::Result<()> {
    places(
        rt,
        &["END", "Void", "end1", "ending", "ends", "en", "booleans"],
    )
}

fn beginnings(rt: &impl Print) -> io::Result<()> {
    places(rt, &["Z9_", "a__", "9a", "_a"])
}

fn case(rt: &impl Print) -> io::Result<()> {
    show_lines(
        rt,
        "End and END are names: A = End . End = ?(); END . END = end .\n\
        labels of either case: A = +{a: A | A: end} .\n\
        a does not define A: a = A .\n\
        a and A are two: a = ?(); A . A = ![]; a .\n\
        a and A are not one twice: a = end . A = end .\n\
        digits and underscores: a1_ = ?(); b_2 . b_2 = +{c_3_: a1_ | x9: b_2} .\n\
        one a part of the other: A0 = ?(); A_ . A_ = ![]; A . A = +{A: A0 | A0: A_ | A_: A} .\n\
        labels like reserved words: A = &{ends: end | string_: A | Float: A | voi: A} .\n",
    )
}

fn second_words(rt: &impl Print) -> io::Result<()> {
    show_lines(
        rt,
        "second name reserved: A = end . void = end .\n\
        second label reserved: A = +{a: A | void: A} .\n\
        digit apart from its name: A 1 = end .\n\
        digit for a label: A = +{1: A} .\n\
        underscore for an item: A = ?(_); A .\n",
    )
}

pub fn cases(rt: &impl Print) -> io::Result<()> {
    reserved(rt)?;
    not_reserved(rt)?;
    beginnings(rt)?;
    case(rt)?;
    second_words(rt)
}
