// Verdicts of texts, in areas that are longer than is needed and full of 7. With each case stands how much of marks is used, "2 × n × m".
use crate::areas::{Full, Named, Sizes, show};
use dual::dual;
use std::io;

pub const R: &str = "R = +{sum: ![string]; &{ok: ?(float); R | bad: R} | stop: end} .";

pub const N: &str = "N = +{sum: ![string]; &{ok: ?(float); N | late: N} | stop: end} .";

pub const M: &str = "M = +{sum: ![string]; &{ok: ?(float); M} | stop: end | reset: M} .";

const FULL: Full = Full { byte: 7, number: 7 };

fn show_each(rt: &impl Print, cases: &[(&str, u8, &str, &str)]) -> io::Result<()> {
    for (name, size, new, old) in cases {
        let lent = Sizes {
            marks: 128,
            path: 128,
            scratch: 256,
        };
        let new = Named::of(new);
        let old = Named::of(old);
        show(rt, *name, &new, &old, *size, lent, FULL)?;
    }
    Ok(())
}

// "asked in two calls, the dual and then the verdict"
fn show_compatible(
    rt: &impl Print,
    name: &str,
    size: u8,
    new: &str,
    other: &str,
) -> io::Result<()> {
    let lent = Sizes {
        marks: 256,
        path: 256,
        scratch: 512,
    };
    let other = Named::of(other);
    let turned = Named::new(dual(other.table, other.names).table, other.names);
    let name = format_args!("{name}, compatible");
    show(rt, name, &Named::of(new), &turned, size, lent, FULL)
}

// The rows of document 01's table, and its worked example.
fn named(rt: &impl Print) -> io::Result<()> {
    let p = "P = ![+{a: end}]; end .";
    let q = "Q = ![+{a: end | b: end}]; end .";
    let own = "A = ![A]; end .";
    show_each(
        rt,
        &[
            ("R R", 50, R, R),
            ("N R", 50, N, R),
            ("M R", 50, M, R),
            ("R M", 50, R, M),
            ("P Q", 40, p, q),
            ("Q P", 40, q, p),
            ("own session", 8, own, own),
        ],
    )
}

// Each reason, and which goes first.
fn reasons(rt: &impl Print) -> io::Result<()> {
    show_each(
        rt,
        &[
            ("kinds", 4, "A = end .", "B = ?(); end ."),
            ("counts", 8, "A = ?(); end .", "B = ?(void); end ."),
            (
                "sorts",
                8,
                "A = ?(void, string, float); end .",
                "B = ?(void, float, string); end .",
            ),
            (
                "sort against session",
                12,
                "A = ?(void, end); end .",
                "B = ?(void, void); end .",
            ),
            (
                "counts before sorts",
                8,
                "A = ?(void, void); end .",
                "B = ?(float); end .",
            ),
            (
                "label of the left",
                18,
                "A = &{b: end | a: end} .",
                "B = &{a: end | c: end} .",
            ),
            (
                "label of the right",
                18,
                "A = +{b: end | a: end} .",
                "B = +{a: end | c: end} .",
            ),
            ("case", 8, "A = &{a: end} .", "B = &{A: end} ."),
        ],
    )
}

// "fewer steps, then the lower number at the first step that differs"; labels by label and not by position.
fn runs(rt: &impl Print) -> io::Result<()> {
    show_each(
        rt,
        &[
            (
                "shorter run",
                96,
                "A = &{a: ?(); ?(); end | b: ?(); end} .",
                "B = &{a: ?(); ?(); ?(); end | b: ?(); ?(); end} .",
            ),
            (
                "lower step",
                30,
                "A = &{a: ?(); end | b: ?(); end} .",
                "B = &{b: end | a: end} .",
            ),
            (
                "item before continuation",
                48,
                "A = ?(end, ?(); end); ?(); end .",
                "B = ?(end, end); end .",
            ),
            (
                "turn and turn back",
                60,
                "A = ![![end]; end]; end .",
                "B = ![![?(); end]; end]; end .",
            ),
        ],
    )
}

// Document 01's "the old node is one of the dual's": the originals stand behind the turned nodes.
fn compatible(rt: &impl Print) -> io::Result<()> {
    for (name, size, new, other) in [
        (
            "hands over",
            80,
            "A = ![P]; end . P = +{a: end | b: end} .",
            "A = ?(P); end . P = +{a: end} .",
        ),
        (
            "takes over",
            80,
            "A = ?(P); end . P = +{a: end | b: end} .",
            "A = ![P]; end . P = +{a: end} .",
        ),
        (
            "R and its user",
            50,
            "U = &{sum: ?(string); +{ok: ![float]; U | bad: U} | stop: end} .",
            R,
        ),
    ] {
        show_compatible(rt, name, size, new, other)?;
    }
    Ok(())
}

pub fn cases(rt: &impl Print) -> io::Result<()> {
    named(rt)?;
    reasons(rt)?;
    runs(rt)?;
    compatible(rt)
}
