// The line of a case: its name, a colon, and the line that is written for its texts, or number and place where an area is too short.
ghost use Rattle.std.specs.Prelude.{◌≤◌};

use crate::areas::{Areas, BYTE, NUMBER, ask};
use std::{fmt, io};
use table::answers::{Question, Refusal};

// What is asked: of two texts, or of an input.
#[derive(Clone, Copy)]
pub enum Asked<'a> {
    Texts(Question, &'a [u8], &'a [u8]),
    Input(Question, &'a [u8]),
}

impl<'a> Asked<'a> {
    pub fn verdict(new: &'a str, old: &'a str) -> Self {
        Asked::Texts(Question::MayReplace, new.as_bytes(), old.as_bytes())
    }

    pub fn compatible(new: &'a str, other: &'a str) -> Self {
        Asked::Texts(Question::IsCompatible, new.as_bytes(), other.as_bytes())
    }
}

// What was answered, with the line's area.
pub fn print(
    rt: &impl Print,
    name: impl fmt::Display + Drop,
    written: Result<usize, Refusal>,
    line: &[u8],
) -> io::Result<()> {
    print!(rt; "{name}: ")?;
    match written {
        // Not `print!`: the area holds bytes, of which no type says that they are text.
        Ok(n) => rt.write_all(line.get(..n).unwrap_or(line)),
        Err(refusal) => rt.println(refusal),
    }
}

// In areas of just so many.
pub fn show_in<const MARKS: usize, const PATH: usize, const SCRATCH: usize, const LINE: usize>(
    rt: &impl Print,
    name: impl fmt::Display + Drop,
    asked: Asked,
) -> io::Result<()>
    requires { (MARKS ≤ 65536) × (PATH ≤ 65536) × (SCRATCH ≤ 65536) × (LINE ≤ 65536) }
{
    let mut marks = [BYTE; MARKS];
    let mut path = [NUMBER; PATH];
    let mut scratch = [NUMBER; SCRATCH];
    let mut line = [BYTE; LINE];
    let areas = Areas {
        marks: &mut marks,
        path: &mut path,
        scratch: &mut scratch,
        line: &mut line,
    };
    let written = ask(asked, areas);
    print(rt, name, written, &line)
}

// In areas for up to 160 pairs of nodes: 2 × n × m, 2 × n × m, 4 × n × m, and 6 × n × m + 18.
pub fn show(rt: &impl Print, name: impl fmt::Display + Drop, asked: Asked) -> io::Result<()> {
    show_in::<320, 320, 640, 978>(rt, name, asked)
}

pub fn show_verdict(rt: &impl Print, name: &str, new: &str, old: &str) -> io::Result<()> {
    show(rt, name, Asked::verdict(new, old))
}

pub fn show_compatible(rt: &impl Print, name: &str, new: &str, other: &str) -> io::Result<()> {
    show(rt, name, Asked::compatible(new, other))
}

// A text beside another one, as the first text and as the second.
pub fn show_beside(rt: &impl Print, name: &str, text: &[u8], other: &str) -> io::Result<()> {
    let other = other.as_bytes();
    let first = Asked::Texts(Question::MayReplace, text, other);
    let second = Asked::Texts(Question::MayReplace, other, text);
    show(rt, format_args!("{name}, first"), first)?;
    show(rt, format_args!("{name}, second"), second)
}

// An input, for both questions.
pub fn show_input(rt: &impl Print, name: &str, input: &str) -> io::Result<()> {
    let input = input.as_bytes();
    show(rt, name, Asked::Input(Question::MayReplace, input))?;
    show(
        rt,
        format_args!("{name}, compatible"),
        Asked::Input(Question::IsCompatible, input),
    )
}
