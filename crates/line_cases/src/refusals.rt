// Every refusal of a text, 1 to 9, in either text and for either question, and two texts that are both refused.
use crate::lists::{compatibles, verdicts};
use crate::show::{Asked, show};
use showing::text::Text;
use std::io;
use table::answers::Question;

fn each(rt: &impl Print, name: &str, text: &[u8]) -> io::Result<()> {
    let good = b"A = end .".as_slice();
    for (which, question, first, second) in [
        ("first", Question::MayReplace, text, good),
        ("second", Question::MayReplace, good, text),
        ("compatible, first", Question::IsCompatible, text, good),
        ("compatible, second", Question::IsCompatible, good, text),
    ] {
        let asked = Asked::Texts(question, first, second);
        show(rt, format_args!("{name}, {which}"), asked)?;
    }
    Ok(())
}

fn numbers(rt: &impl Print) -> io::Result<()> {
    each(rt, "refusal 1", Text::<4097>::all(b' ', 4097).bytes())?;
    for (name, text) in [
        ("refusal 2", "A = end ; ."),
        ("refusal 3", "A = abcdefghijklmnopq ."),
        ("refusal 4", "A = ?(?(?(?(?(?(?(?(?(?(?(?(?(?(?(?(?("),
        ("refusal 5", "A = ?(void,void,void,void,void); end ."),
        ("refusal 6", "A = &{m: A | m: A} ."),
        ("refusal 7", "A = A . A = end ."),
        ("refusal 8", "A = ?(B); A ."),
        ("refusal 9", "A = B . B = A ."),
    ] {
        each(rt, name, text.as_bytes())?;
    }
    Ok(())
}

// "The first text's refusal goes first."
fn both(rt: &impl Print) -> io::Result<()> {
    verdicts(
        rt,
        "both refused, 9 and 2: A = A . / = end .\n\
        both refused, 2 and 9: = end . / A = A .\n\
        both refused, 8 and 8: A = ?(C); A . / B = C .\n",
    )?;
    compatibles(
        rt,
        "both refused, 9 and 2, compatible: A = A . / = end .\n\
        second refused, compatible, with a session item: A = ![A]; A . / B = ![C]; B .\n",
    )
}

pub fn cases(rt: &impl Print) -> io::Result<()> {
    numbers(rt)?;
    both(rt)
}
