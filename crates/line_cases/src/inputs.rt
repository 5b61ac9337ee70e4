// "reads the new text, one byte 0, the old text": inputs, for both questions.
use crate::lists::inputs;
use crate::show::{Asked, show, show_input};
use showing::text::Text;
use std::io;
use table::answers::Question;

// "Without a byte 0 the second text is empty; further zero bytes belong to the second."
fn zeros(rt: &impl Print) -> io::Result<()> {
    inputs(
        rt,
        "nothing: \n\
        zero alone: \x00\n\
        no zero: A = end .\n\
        no zero and no full stop: A = end\n\
        zero first: \x00A = end .\n\
        zero last: A = end .\x00\n\
        zero and a blank: A = end .\x00 \n\
        two texts: A = end .\x00B = end .\n\
        two zeros between: A = end .\x00\x00B = end .\n\
        zero behind the second: A = end .\x00B = end .\x00\n\
        zero inside the second: A = end .\x00B =\x00end .\n\
        three texts: A = end .\x00B = end .\x00C = end .\n",
    )
}

fn line_feeds(rt: &impl Print) -> io::Result<()> {
    for (name, input) in [
        ("line feed last", "A = end .\x00B = end .\n"),
        ("line feeds around the zero", "A = end .\n\x00\nB = end .\n"),
        ("line feed alone for the second", "A = end .\x00\n"),
    ] {
        show_input(rt, name, input)?;
    }
    Ok(())
}

fn which(rt: &impl Print) -> io::Result<()> {
    inputs(
        rt,
        "first refused: A = B .\x00B = end .\n\
        second refused: A = end .\x00B = B .\n\
        both refused: A = A .\x00= end .\n\
        both empty but for blanks:  \x00 \n\
        N and R: N = +{sum: ![string]; &{ok: ?(float); N | late: N} | stop: end} .\x00R = +{sum: ![string]; &{ok: ?(float); R | bad: R} | stop: end} .\n\
        U and R: U = &{sum: ?(string); +{ok: ![float]; U | bad: U} | stop: end} .\x00R = +{sum: ![string]; &{ok: ?(float); R | bad: R} | stop: end} .\n\
        fewer commands and more: A = +{a: A} .\x00B = +{a: B | b: B} .\n\
        more commands and fewer: A = +{a: A | b: A} .\x00B = +{a: B} .\n\
        fewer replies and more commands: A = &{a: A} .\x00B = +{a: B | b: B} .\n\
        more replies and fewer commands: A = &{a: A | b: A} .\x00B = +{a: B} .\n",
    )
}

// Two texts of blanks behind one definition each: the byte 0 stands behind the first `zero` bytes, and all are `len`.
fn long(rt: &impl Print, question: Question, cases: &[(&str, usize, usize)]) -> io::Result<()> {
    for (name, zero, len) in cases {
        let first = Text::<8195>::of("A = end .").up_to(*zero);
        let input = first.and("\x00").and("B = end .").up_to(*len);
        show(rt, *name, Asked::Input(question, input.bytes()))?;
    }
    Ok(())
}

// A text has at most 4,096 bytes; the byte 0 belongs to neither.
fn lengths(rt: &impl Print) -> io::Result<()> {
    long(
        rt,
        Question::MayReplace,
        &[
            ("first of 4,096 bytes", 4096, 4106),
            ("first of 4,097 bytes", 4097, 4107),
            ("second of 4,096 bytes", 9, 4106),
            ("second of 4,097 bytes", 9, 4107),
            ("both of 4,096 bytes", 4096, 8193),
            ("both of 4,097 bytes", 4097, 8195),
            ("4,096 bytes and no zero", 4096, 4096),
            ("4,097 bytes and no zero", 4097, 4097),
            ("4,096 bytes and a zero", 4096, 4097),
        ],
    )
}

fn lengths_compatible(rt: &impl Print) -> io::Result<()> {
    long(
        rt,
        Question::IsCompatible,
        &[
            ("first of 4,097 bytes, compatible", 4097, 4107),
            ("second of 4,096 bytes, compatible", 9, 4106),
            ("second of 4,097 bytes, compatible", 9, 4107),
        ],
    )
}

pub fn cases(rt: &impl Print) -> io::Result<()> {
    zeros(rt)?;
    line_feeds(rt)?;
    which(rt)?;
    lengths(rt)?;
    lengths_compatible(rt)
}
