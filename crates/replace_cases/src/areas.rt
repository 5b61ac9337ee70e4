// A case: the areas are filled with one value each, the verdict is asked, and what they then hold is printed: the places that are marked 1
// (and any other that is not 0, with its mark), the steps, whether scratch is 0 where it may be used, and whether all else stayed.
use crate::printing::{Shown, steps};
use reader::read;
use replace::may_replace;
use std::{fmt, io};
use table::Table;
use table::answers::{Refusal, Verdict};

// A table, with its name bytes.
#[derive(Clone, Copy)]
pub struct Named<'a> {
    pub table: Table,
    pub names: &'a [u8],
}

impl<'a> Named<'a> {
    pub fn new(table: Table, names: &'a [u8]) -> Self {
        Named { table, names }
    }

    pub fn of(text: &'a str) -> Self {
        let names = text.as_bytes();
        Named::new(read(names).table, names)
    }
}

const MARKS: usize = 256;

const PATH: usize = 256;

const SCRATCH: usize = 512;

// What the areas are full of before, marks and the other two.
#[derive(Clone, Copy)]
pub struct Full {
    pub byte: u8,
    pub number: u16,
}

// How many of each area are lent, or used.
#[derive(Clone, Copy)]
pub struct Sizes {
    pub marks: usize,
    pub path: usize,
    pub scratch: usize,
}

const NOTHING: Sizes = Sizes {
    marks: 0,
    path: 0,
    scratch: 0,
};

// What the areas of a case hold after the verdict, and what is behind the part that was lent.
#[derive(Clone, Copy)]
struct Areas {
    marks: [u8; MARKS],
    path: [u16; PATH],
    scratch: [u16; SCRATCH],
}

// Asks in areas that were full of `full`.
fn ask(new: &Named, old: &Named, lent: Sizes, full: Full) -> (Result<Verdict, Refusal>, Areas) {
    let mut marks = [full.byte; MARKS];
    let mut path = [full.number; PATH];
    let mut scratch = [full.number; SCRATCH];
    let answer = may_replace(
        new.table,
        new.names,
        old.table,
        old.names,
        &mut marks[..lent.marks.min(MARKS)],
        &mut path[..lent.path.min(PATH)],
        &mut scratch[..lent.scratch.min(SCRATCH)],
    );
    let after = Areas {
        marks,
        path,
        scratch,
    };
    (answer, after)
}

impl Areas {
    fn print_marks(&self, rt: &impl Print, size: usize) -> io::Result<()> {
        rt.print(", marks")?;
        for (i, mark) in self.marks.iter().enumerate().take(size) {
            if *mark != 0 {
                print!(rt; " {i}")?;
            }
            if 1 < *mark {
                print!(rt; "={mark}")?;
            }
        }
        Ok(())
    }

    fn print_path(&self, rt: &impl Print, steps: usize) -> io::Result<()> {
        rt.print(", path")?;
        for step in self.path.iter().take(steps) {
            print!(rt; " {step}")?;
        }
        Ok(())
    }

    fn print_scratch(&self, rt: &impl Print, twice: usize) -> io::Result<()> {
        let cleared = self.scratch.iter().take(twice).all(|number| *number == 0);
        rt.print(if cleared {
            ", scratch 0"
        } else {
            ", scratch not 0"
        })
    }

    // Whether all that is not used is as it was.
    fn print_rest(&self, rt: &impl Print, used: Sizes, full: Full) -> io::Result<()> {
        let Full { byte, number } = full;
        let kept = self.marks.iter().skip(used.marks).all(|x| *x == byte)
            && self.path.iter().skip(used.path).all(|x| *x == number)
            && self.scratch.iter().skip(used.scratch).all(|x| *x == number);
        rt.println(if kept {
            ", the rest kept"
        } else {
            ", the rest changed"
        })
    }
}

// The areas are full of `full` before; `size` of the marks may be used, and twice as much of scratch.
pub fn show(
    rt: &impl Print,
    name: impl fmt::Display + Drop,
    new: &Named,
    old: &Named,
    size: u8,
    lent: Sizes,
    full: Full,
) -> io::Result<()> {
    let (answer, after) = ask(new, old, lent, full);
    print!(rt; "{name}: {}", Shown(answer))?;
    if answer.is_err() {
        return after.print_rest(rt, NOTHING, full);
    }
    let marks = usize::from(size);
    let used = Sizes {
        marks,
        path: steps(answer),
        scratch: 2 * marks,
    };
    after.print_marks(rt, used.marks)?;
    after.print_path(rt, used.path)?;
    after.print_scratch(rt, used.scratch)?;
    after.print_rest(rt, used, full)
}
