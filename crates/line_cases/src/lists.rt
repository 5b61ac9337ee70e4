// Lists of cases, a line each: its name, a colon, and what the cases are of.
use crate::show::{show_beside, show_compatible, show_input, show_verdict};
use std::io;

fn each<F: Fn(&str, &str) -> io::Result<()>>(cases: &str, show: F) -> io::Result<()>
    requires { F.IsAlwaysCallable show }
{
    for case in cases.lines() {
        if let Some((name, rest)) = case.split_once(": ") {
            show(name, rest)?;
        }
    }
    Ok(())
}

// Two texts, parted by a stroke.
pub fn verdicts(rt: &impl Print, cases: &str) -> io::Result<()> {
    each(cases, |name, texts| match texts.split_once(" / ") {
        Some((new, old)) => show_verdict(rt, name, new, old),
        None => Ok(()),
    })
}

pub fn compatibles(rt: &impl Print, cases: &str) -> io::Result<()> {
    each(cases, |name, texts| match texts.split_once(" / ") {
        Some((new, other)) => show_compatible(rt, name, new, other),
        None => Ok(()),
    })
}

// A text, which is shown as the first of two and as the second.
pub fn texts(rt: &impl Print, cases: &str) -> io::Result<()> {
    each(cases, |name, text| {
        show_beside(rt, name, text.as_bytes(), "A = end .")
    })
}

// An input, for both questions.
pub fn inputs(rt: &impl Print, cases: &str) -> io::Result<()> {
    each(cases, |name, input| show_input(rt, name, input))
}
