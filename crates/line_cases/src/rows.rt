// The two tables of document 01, row by row.
use crate::lists::{texts, verdicts};
use crate::show::show_verdict;
use crate::texts::{M, N, P, Q, R};
use std::io;

fn named(rt: &impl Print) -> io::Result<()> {
    for (name, new, old) in [
        ("R, R", R, R),
        ("N, R", N, R),
        ("M, R", M, R),
        ("R, M", R, M),
        ("P, Q", P, Q),
        ("Q, P", Q, P),
    ] {
        show_verdict(rt, name, new, old)?;
    }
    Ok(())
}

fn written_out(rt: &impl Print) -> io::Result<()> {
    verdicts(
        rt,
        "end and a message: A = end . / B = ?(); end .\n\
        no item and one: A = ?(); end . / B = ?(void); end .\n\
        string and float: A = ?(string); end . / B = ?(float); end .\n\
        rounds of one and two: A = ?(string); A . / B = ?(string); ?(string); B .\n",
    )
}

// A row of the second table names the place in a text; the line also says which of the two it is.
fn refused(rt: &impl Print) -> io::Result<()> {
    texts(
        rt,
        "empty: \n\
        no full stop: A = end\n\
        no label: A = +{} .\n\
        the wrong bracket closes: A = ![string) .\n\
        its own name: A = A .\n\
        never defined: A = B .\n\
        defined twice: A = end . A = end .\n\
        label twice: A = +{m: end | m: end} .\n",
    )
}

pub fn cases(rt: &impl Print) -> io::Result<()> {
    named(rt)?;
    written_out(rt)?;
    refused(rt)
}
