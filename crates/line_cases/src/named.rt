// R, N, M, P and Q of document 01 beside each other, as far as its first table does not have them, and beside their duals.
use crate::show::{show_compatible, show_verdict};
use crate::texts::{M, N, P, Q, R};
use std::io;

// The duals of R, N, M, P and Q written out: "a session item is not turned round".
const U: &str = "U = &{sum: ?(string); +{ok: ![float]; U | bad: U} | stop: end} .";

const V: &str = "V = &{sum: ?(string); +{ok: ![float]; V | late: V} | stop: end} .";

const W: &str = "W = &{sum: ?(string); +{ok: ![float]; W} | stop: end | reset: W} .";

const Y: &str = "Y = ?(+{a: end}); end .";

const Z: &str = "Z = ?(+{a: end | b: end}); end .";

fn verdicts(rt: &impl Print) -> io::Result<()> {
    for (name, new, old) in [
        ("R, N", R, N),
        ("N, N", N, N),
        ("N, M", N, M),
        ("M, N", M, N),
        ("M, M", M, M),
        ("P, P", P, P),
        ("Q, Q", Q, Q),
        ("R, P", R, P),
        ("P, R", P, R),
        ("Q, M", Q, M),
    ] {
        show_verdict(rt, name, new, old)?;
    }
    Ok(())
}

fn duals_of_replies(rt: &impl Print) -> io::Result<()> {
    for (name, new, other) in [
        ("U with R", U, R),
        ("U with N", U, N),
        ("U with M", U, M),
        ("V with R", V, R),
        ("V with N", V, N),
        ("V with M", V, M),
        ("W with R", W, R),
        ("W with N", W, N),
        ("W with M", W, M),
    ] {
        show_compatible(rt, name, new, other)?;
    }
    Ok(())
}

fn with_duals(rt: &impl Print) -> io::Result<()> {
    for (name, new, other) in [
        ("R with U", R, U),
        ("N with U", N, U),
        ("M with U", M, U),
        ("R with W", R, W),
        ("R with R", R, R),
    ] {
        show_compatible(rt, name, new, other)?;
    }
    Ok(())
}

// A dual of P has 8 nodes and one of Q 10: the originals, to which the item links, stand behind the turned nodes, the choice at 4 + 1 and
// at 5 + 1.
fn items(rt: &impl Print) -> io::Result<()> {
    for (name, new, other) in [
        ("Y with P", Y, P),
        ("Y with Q", Y, Q),
        ("Z with P", Z, P),
        ("Z with Q", Z, Q),
        ("P with Y", P, Y),
        ("P with Z", P, Z),
        ("Q with Y", Q, Y),
        ("Q with Z", Q, Z),
        ("P with P", P, P),
    ] {
        show_compatible(rt, name, new, other)?;
    }
    Ok(())
}

pub fn cases(rt: &impl Print) -> io::Result<()> {
    verdicts(rt)?;
    duals_of_replies(rt)?;
    with_duals(rt)?;
    items(rt)
}
