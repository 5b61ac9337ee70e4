// The lent areas, full of 7 before; no line depends on it. Of areas that are longer than what is lent, the line of a case also says whether
// all that the answer does not use stayed.
use crate::show::{Asked, print};
use lines::{line_of_input, line_of_texts};
use std::io;
use table::answers::{Question, Refusal};

pub const BYTE: u8 = 7;

pub const NUMBER: u16 = 7;

// How many elements of each area are lent, or used.
#[derive(Clone, Copy)]
pub struct Sizes {
    pub marks: usize,
    pub path: usize,
    pub scratch: usize,
    pub line: usize,
}

const NOTHING: Sizes = Sizes {
    marks: 0,
    path: 0,
    scratch: 0,
    line: 0,
};

impl From<[usize; 4]> for Sizes {
    fn from([marks, path, scratch, line]: [usize; 4]) -> Sizes {
        Sizes {
            marks,
            path,
            scratch,
            line,
        }
    }
}

#[derive(Drop)]
pub struct Areas<'a> {
    pub marks: &'a mut [u8],
    pub path: &'a mut [u16],
    pub scratch: &'a mut [u16],
    pub line: &'a mut [u8],
}

pub fn ask(asked: Asked, areas: Areas) -> Result<usize, Refusal> {
    let Areas {
        marks,
        path,
        scratch,
        line,
    } = areas;
    match asked {
        Asked::Texts(question, first, second) => {
            line_of_texts(question, first, second, marks, path, scratch, line)
        }
        Asked::Input(question, input) => {
            line_of_input(question, input, marks, path, scratch, line)
        }
    }
}

// The most that is lent here of each.
const MARKS: usize = 60;

const PATH: usize = 60;

const SCRATCH: usize = 120;

const LINE: usize = 200;

// What the areas of a case hold after the answer, and what is behind the part that was lent.
#[derive(Clone, Copy)]
struct After {
    marks: [u8; MARKS],
    path: [u16; PATH],
    scratch: [u16; SCRATCH],
    line: [u8; LINE],
}

// The first of each area are lent; where there are not so many, all.
fn ask_lent(asked: Asked, lent: Sizes) -> (Result<usize, Refusal>, After) {
    let mut marks = [BYTE; MARKS];
    let mut path = [NUMBER; PATH];
    let mut scratch = [NUMBER; SCRATCH];
    let mut line = [BYTE; LINE];
    let areas = Areas {
        marks: &mut marks[..lent.marks.min(MARKS)],
        path: &mut path[..lent.path.min(PATH)],
        scratch: &mut scratch[..lent.scratch.min(SCRATCH)],
        line: &mut line[..lent.line.min(LINE)],
    };
    let written = ask(asked, areas);
    let after = After {
        marks,
        path,
        scratch,
        line,
    };
    (written, after)
}

impl After {
    // Whether all four are as they were behind what is used.
    fn kept(&self, used: Sizes) -> bool {
        self.marks.iter().skip(used.marks).all(|x| *x == BYTE)
            && self.path.iter().skip(used.path).all(|x| *x == NUMBER)
            && self.scratch.iter().skip(used.scratch).all(|x| *x == NUMBER)
            && self.line.iter().skip(used.line).all(|x| *x == BYTE)
    }
}

// What an answer uses, where a verdict uses `verdict` of the first three: a refusal nothing, and a line its own bytes.
fn used(written: Result<usize, Refusal>, verdict: Sizes) -> Sizes {
    match written {
        Ok(line) => Sizes { line, ..verdict },
        Err(_) => NOTHING,
    }
}

// `verdict` is what a verdict on the two texts uses of the first three areas.
fn show(rt: &impl Print, name: &str, asked: Asked, verdict: Sizes, lent: Sizes) -> io::Result<()> {
    let (written, after) = ask_lent(asked, lent);
    let kept = after.kept(used(written, verdict));
    let rest = if kept { "kept" } else { "changed" };
    let Sizes {
        marks,
        path,
        scratch,
        line,
    } = lent;
    print(
        rt,
        format_args!("{name}, areas of {marks} {path} {scratch} {line}, the rest {rest}"),
        written,
        &after.line,
    )
}

// In areas of each of these lengths: of marks, of path, of scratch and of the line.
pub fn show_each(
    rt: &impl Print,
    name: &str,
    asked: Asked,
    verdict: [usize; 3],
    lengths: &[[usize; 4]],
) -> io::Result<()> {
    let [marks, path, scratch] = verdict;
    let verdict = Sizes::from([marks, path, scratch, 0]);
    for lent in lengths {
        show(rt, name, asked, verdict, Sizes::from(*lent))?;
    }
    Ok(())
}
