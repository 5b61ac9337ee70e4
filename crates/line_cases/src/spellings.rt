// Words with their case, blanks of every kind and none, and bytes that are like blanks and are none.
use crate::lists::{texts, verdicts};
use crate::show::{show_beside, show_verdict};
use crate::texts::R;
use std::io;

// "case counted"
fn case(rt: &impl Print) -> io::Result<()> {
    verdicts(
        rt,
        "case of a command: A = +{go: A} . / B = +{Go: B} .\n\
        case of a reply: A = &{OK: A} . / B = &{ok: B} .\n\
        both cases in a choice: A = +{a: A | A: end} . / B = +{A: end | a: B} .\n\
        both cases, the other way round: A = +{a: A | A: end} . / B = +{a: end | A: B} .\n\
        names of either case: A = ?(); a . a = end . / B = ?(); end .\n\
        names like reserved words: A = End . End = ?(); END . END = end . / B = ?(); end .\n\
        labels like reserved words: A = +{End: A | VOID: A} . / B = +{VOID: B | End: B} .\n\
        one name in two texts: A = B . B = ?(); A . / B = A . A = ?(); B .\n\
        digits and underscores: A_1 = +{a_1: A_1 | a1_: A_1} . / B = +{a1_: B | a_1: B} .\n",
    )
}

fn refused(rt: &impl Print) -> io::Result<()> {
    texts(
        rt,
        "name of the other case: a = A .\n\
        sort of the other case: A = ?(String); end .\n\
        end of the other case: A = END .\n\
        reserved as a name: end = end .\n\
        reserved as a label: A = +{void: A} .\n\
        digit first: 1A = end .\n\
        underscore first: _A = end .\n\
        two words run together: A = endB = end .\n\
        blank inside a word: A = e nd .\n",
    )
}

// "Blank bytes are space, tab, LF and CR."
fn blanks(rt: &impl Print) -> io::Result<()> {
    for (name, new) in [
        ("spaces", "  A  =  end  .  "),
        ("tabs", "\t\tA\t\t=\t\tend\t\t.\t\t"),
        ("line feeds", "\n\nA\n\n=\n\nend\n\n.\n\n"),
        ("carriage returns", "\r\rA\r\r=\r\rend\r\r.\r\r"),
    ] {
        show_verdict(rt, name, new, "A=end.")?;
    }
    show_verdict(
        rt,
        "old with all four",
        "A=end.",
        " \t\n\rA \t\n\r= \t\n\rend \t\n\r. \t\n\r",
    )
}

// A label's place is another in each of the three.
fn around_tokens(rt: &impl Print) -> io::Result<()> {
    let none = "R=+{sum:![string];&{ok:?(float);R|bad:R}|stop:end}.";
    let each =
        " R\t=\n+\r{ sum\t:\n!\r[ string\t]\n;\r& {\tok\n:\r? (\tfloat\n)\r; R\t|\nbad\r: R\t}\n|\rstop :\tend\n}\r. ";
    show_verdict(rt, "R without blanks, R", none, R)?;
    show_verdict(rt, "R, R with a blank around each token", R, each)?;
    show_verdict(
        rt,
        "R with a blank around each token, R without",
        each,
        none,
    )
}

// A byte of 128 and more begins no token, and neither do the two bytes of a no-break space in UTF-8, of which the first is named.
const LIKE_BLANKS: [(&str, &[u8]); 9] = [
    ("vertical tab", b"A =\x0bend ."),
    ("form feed", b"A =\x0cend ."),
    ("byte 0", b"A =\x00end ."),
    ("byte 133", b"A =\x85end ."),
    ("no-break space", b"A =\xa0end ."),
    ("no-break space of two bytes", b"A =\xc2\xa0end ."),
    ("byte order mark", b"\xef\xbb\xbfA = end ."),
    ("vertical tab behind the text", b"A = end .\x0b"),
    ("no-break space behind the text", b"A = end .\xa0"),
];

fn like_blanks(rt: &impl Print) -> io::Result<()> {
    for (name, text) in LIKE_BLANKS {
        show_beside(rt, name, text, "A = end .")?;
    }
    Ok(())
}

pub fn cases(rt: &impl Print) -> io::Result<()> {
    case(rt)?;
    refused(rt)?;
    blanks(rt)?;
    around_tokens(rt)?;
    like_blanks(rt)
}
