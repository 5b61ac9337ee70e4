// Duals of texts.
use dual::dual;
use reader::read;
use showing::Shown;
use std::{fmt, io};
use table::Table;
use table::answers::Made;

const R: &str = "R = +{sum: ![string]; &{ok: ?(float); R | bad: R} | stop: end} .";

// The line of a case: the dual of a table, with the text that its labels are a part of.
fn show_dual(
    rt: &impl Print,
    name: impl fmt::Display + Drop,
    t: Table,
    text: &str,
) -> io::Result<Made> {
    let made = dual(t, text.as_bytes());
    let shown = Shown {
        what: &made,
        names: text.as_bytes(),
        places: false,
    };
    println!(rt; "{name}: {shown}")?;
    Ok(made)
}

// The dual of the text's table.
fn show(rt: &impl Print, name: &str, text: &str) -> io::Result<Made> {
    let made = read(text.as_bytes());
    show_dual(rt, name, made.table, text)
}

// And the dual's dual.
fn show_twice(rt: &impl Print, name: &str, text: &str) -> io::Result<()> {
    let once = show(rt, name, text)?;
    show_dual(rt, format_args!("{name}, twice"), once.table, text)?;
    Ok(())
}

fn show_each(rt: &impl Print, cases: &[(&str, &str)]) -> io::Result<()> {
    for (name, text) in cases {
        show(rt, name, text)?;
    }
    Ok(())
}

// The texts that document 01 names. Without session items: "same numbers and start".
fn named(rt: &impl Print) -> io::Result<()> {
    show_twice(rt, "R", R)?;
    show(rt, "P", "P = ![+{a: end}]; end .")?;
    show_twice(rt, "own session", "A = ![A]; end .")?;
    show(rt, "one end", "A = end .")?;
    Ok(())
}

// "labels and lists stay"; "a session item is not turned round"
fn lists(rt: &impl Print) -> io::Result<()> {
    show_each(
        rt,
        &[
            (
                "the four sorts",
                "A = ?(string, float, boolean, void); ![void, boolean, float, string]; A .",
            ),
            ("no items", "A = ?(); ![]; A ."),
            ("sorts and sessions", "A = ![string, end, A, ?(); A]; end ."),
            (
                "choice in an item in a choice",
                "A = +{a: ?(&{b: ![A]; A}); A} .",
            ),
            (
                "labels in their order",
                "A = &{z: end | a: +{m: A | b: end} | k: A} .",
            ),
        ],
    )
}

// "With any session item", reached or not; and a start that is not 0.
fn starts(rt: &impl Print) -> io::Result<()> {
    show_each(
        rt,
        &[
            ("item that nothing reaches", "A = end . B = ![A]; end ."),
            ("start at 1", "A = B . C = end . B = ?(string); C ."),
            (
                "start at 1, with an item",
                "A = B . C = end . B = ?(A); C .",
            ),
        ],
    )
}

// A refused text has the blank table, which is not well formed.
fn refused(rt: &impl Print) -> io::Result<()> {
    show_twice(rt, "refused text", "A = ?(")
}

pub fn cases(rt: &impl Print) -> io::Result<()> {
    named(rt)?;
    lists(rt)?;
    starts(rt)?;
    refused(rt)
}
