// Blanks, bytes that are no part of the notation, texts that are cut, and far too much of one thing.
ghost use Rattle.std.specs.Iterator.{IsFinite};

use crate::show::{show, show_lines, show_places};
use crate::texts::{LongText, show_all, show_repeated};
use reader::read;
use std::{fmt, io};
use table::answers::{Refusal, RefusalKind};

const R: &[u8; 64] = b"R = +{sum: ![string]; &{ok: ?(float); R | bad: R} | stop: end} .";

fn blanks(rt: &impl Print) -> io::Result<()> {
    show(rt, "one of each blank", b" \t\n\r")?;
    show(
        rt,
        "lines that end with CR LF",
        b"\r\nA = ?();\r\n\tB .\r\n\r\nB = end .\r\n",
    )?;
    show_lines(
        rt,
        "blanks only:    \n\
        no blank between two words: A = endB = end .\n\
        blank inside a word: A = e nd .\n\
        remark behind the text: A = end . // x\n",
    )
}

// Texts that differ in blanks: so do the labels' places, and nothing else of the tables.
fn around_tokens(rt: &impl Print) -> io::Result<()> {
    show_places(rt, "R, places", R)?;
    show_places(
        rt,
        "R, no blanks",
        b"R=+{sum:![string];&{ok:?(float);R|bad:R}|stop:end}.",
    )?;
    show_places(
        rt,
        "R, a blank around each token",
        b" R\t=\n+\r{ sum\t:\n!\r[ string\t]\n;\r& {\tok\n:\r? (\tfloat\n)\r; R\t|\nbad\r: R\t}\n|\rstop :\tend\n}\r. ",
    )?;
    show_places(rt, "no blanks", b"A=+{a:A}.")?;
    show_places(
        rt,
        "each blank around each token",
        b" \t\n\rA \t\n\r= \t\n\r+ \t\n\r{ \t\n\ra \t\n\r: \t\n\rA \t\n\r} \t\n\r. \t\n\r",
    )
}

fn zeros(rt: &impl Print) -> io::Result<()> {
    show_lines(
        rt,
        "0 before the text: \x00A = end .\n\
        0 inside a word: A = e\x00nd .\n\
        0 behind a name: A\x00= end .\n\
        0 behind the text: A = end .\x00\n\
        0 between two texts: A = end .\x00B = end .\n",
    )
}

fn one_byte(rt: &impl Print) -> io::Result<()> {
    for (name, byte) in [
        ("byte 0", 0),
        ("vertical tab", 11),
        ("form feed", 12),
        ("quotation mark", b'"'),
        ("digit", b'0'),
        ("underscore", b'_'),
        ("byte 127", 127),
        ("byte 128", 128),
        ("byte 255", 255),
    ] {
        show(rt, name, &[byte])?;
    }
    Ok(())
}

// An answer for a text that was changed: a refusal may be where the change is. Not a `Result`: there are three cases.
#[derive(Clone, Copy, PartialEq, Eq)]
enum Seen {
    Taken,
    Here(RefusalKind),
    There(Refusal),
}

impl Seen {
    fn of(answer: Result<(), Refusal>, change: Option<usize>) -> Seen {
        match answer {
            Ok(()) => Seen::Taken,
            Err(refusal) if change == Some(refusal.place) => Seen::Here(refusal.kind),
            Err(refusal) => Seen::There(refusal),
        }
    }
}

impl fmt::Display for Seen {
    fn fmt<W: fmt::Write>(&self, f: &mut fmt::Formatter<W>) -> fmt::Result {
        match self {
            Seen::Taken => f.write_str("ok"),
            Seen::Here(kind) => write!(f, "{} here", *kind as usize),
            Seen::There(refusal) => write!(f, "{refusal}"),
        }
    }
}

// Which answers are given for the numbers in order, and from which number on each.
fn runs<I: Iterator<Item = (usize, Seen)>>(
    rt: &impl Print,
    name: &str,
    answers: I,
) -> io::Result<()>
    requires can_next { I.can_next answers }
    requires ends { IsFinite (I.remaining answers) }
{
    print!(rt; "{name}")?;
    let mut last = None;
    for (from, seen) in answers {
        if last != Some(seen) {
            let between = if from == 0 { ": " } else { ", " };
            print!(rt; "{between}{seen} from {from}")?;
        }
        last = Some(seen);
    }
    rt.println("")
}

// The answers for each byte from 0 to 255 between two parts.
fn each_byte(rt: &impl Print, name: &str, before: &str, behind: &str) -> io::Result<()> {
    runs(
        rt,
        name,
        (0..=255u8).map(|b| {
            let text = LongText::of(before).with(b).and(behind);
            (usize::from(b), Seen::of(read(text.bytes()).answer, None))
        }),
    )
}

// The answers for a text that is cut after each of its bytes; `here` is the cut.
fn each_cut(rt: &impl Print, name: &str, text: &[u8]) -> io::Result<()> {
    runs(
        rt,
        name,
        (0..=text.len()).map(|n| {
            let cut = text.get(..n).unwrap_or(text);
            (n, Seen::of(read(cut).answer, Some(n)))
        }),
    )
}

// The answers for R with a byte 0 in place of each byte; `here` is that byte.
fn each_zero(rt: &impl Print, name: &str) -> io::Result<()> {
    runs(
        rt,
        name,
        (0..R.len()).map(|n| {
            let mut text = *R;
            if let Some(byte) = text.get_mut(n) {
                *byte = 0;
            }
            (n, Seen::of(read(&text).answer, Some(n)))
        }),
    )
}

// Four bytes are blank (9, 10, 13, 32), 52 are letters, and eleven more belong to a word behind a letter (48 to 57, 95). Alone, a blank or
// a letter puts the fault at the end of the text, any other byte is it. For a type, a blank or a sign (33, 38, 43, 63) puts it at the full
// stop; `A` is its own name, any other letter undefined. Behind `end`, a blank is right, a word byte makes another word of it, which is
// undefined, and a full stop (46) is right and makes the next one the fault. In R no word that is cut short is a label that its choice has,
// so the first fault is where the text is cut or the 0 stands.
fn each(rt: &impl Print) -> io::Result<()> {
    each_byte(rt, "each byte alone", "", "")?;
    each_byte(rt, "each byte for a type", "A = ", " .")?;
    each_byte(rt, "each byte behind end", "A = end", ".")?;
    each_cut(rt, "R cut after each byte", R)?;
    each_cut(
        rt,
        "two definitions cut after each byte",
        b"A = B . B = end . A = A .",
    )?;
    each_zero(rt, "R with a 0 for each byte")
}

// The 17th of brackets of two bytes each stands at 4 + 16 * 2 + 1, of four at 4 + 16 * 4 + 1; the 65th node at 4 + 64 * 4.
fn far_too_deep(rt: &impl Print) -> io::Result<()> {
    for (name, n, part) in [
        ("2,000 open (", 2000, "?("),
        ("100 open [", 100, "!["),
        ("100 open {", 100, "+{a:"),
        ("100 messages in a row", 100, "?();"),
    ] {
        show_repeated(rt, name, "A = ", n, part, "")?;
    }
    Ok(())
}

fn far_too_many(rt: &impl Print) -> io::Result<()> {
    for (name, byte) in [
        ("1,000 (", b'('),
        ("1,000 [", b'['),
        ("1,000 {", b'{'),
        ("1,000 }", b'}'),
        ("1,000 signs", b'?'),
    ] {
        show_all(rt, name, byte, 1000)?;
    }
    for (name, before, n, part) in [
        ("1,000 ( for a type", "A = ", 1000, "("),
        ("100 signs for a type", "A = ", 100, "!"),
        ("100 names", "", 100, "A "),
        ("100 of one name", "", 100, "A=A."),
    ] {
        show_repeated(rt, name, before, n, part, "")?;
    }
    Ok(())
}

pub fn cases(rt: &impl Print) -> io::Result<()> {
    blanks(rt)?;
    around_tokens(rt)?;
    zeros(rt)?;
    one_byte(rt)?;
    each(rt)?;
    far_too_deep(rt)?;
    far_too_many(rt)
}
