// The lines of the cases.
use reader::read;
use showing::Shown;
use std::{fmt, io};

fn print_line(
    rt: &impl Print,
    name: impl fmt::Display + Drop,
    text: &[u8],
    places: bool,
) -> io::Result<()> {
    let made = read(text);
    let shown = Shown {
        what: &made,
        names: text,
        places,
    };
    println!(rt; "{name}: {shown}")
}

// The line of a case.
pub fn show(rt: &impl Print, name: impl fmt::Display + Drop, text: &[u8]) -> io::Result<()> {
    print_line(rt, name, text, false)
}

// The line of a case, with the place of each label (`@`).
pub fn show_places(rt: &impl Print, name: &str, text: &[u8]) -> io::Result<()> {
    print_line(rt, name, text, true)
}

// Several cases, a line each: a name, a colon, a blank, and a text.
pub fn show_lines(rt: &impl Print, cases: &str) -> io::Result<()> {
    for case in cases.lines() {
        if let Some((name, text)) = case.split_once(": ") {
            show(rt, name, text.as_bytes())?;
        }
    }
    Ok(())
}
