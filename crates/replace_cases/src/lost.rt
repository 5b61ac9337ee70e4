// The missing label: of the answer that was given, and of answers made by hand.
use crate::areas::Named;
use crate::texts::{M, N, R};
use missing::missing_label;
use replace::may_replace;
use std::{fmt, io};
use table::answers::{Found, Refusal, Verdict};

fn print_label(
    rt: &impl Print,
    name: impl fmt::Display + Drop,
    new: &Named,
    old: &Named,
    answer: Result<Verdict, Refusal>,
) -> io::Result<()> {
    let label = missing_label(new.table, new.names, old.table, old.names, answer);
    println!(rt; "{name}: `{}`", label.escape_ascii())
}

// The label that the verdict's own answer is about.
fn show(rt: &impl Print, name: &str, new: &str, old: &str) -> io::Result<()> {
    let mut marks = [0; 128];
    let mut path = [0; 128];
    let mut scratch = [0; 256];
    let new = Named::of(new);
    let old = Named::of(old);
    let answer = may_replace(
        new.table,
        new.names,
        old.table,
        old.names,
        &mut marks,
        &mut path,
        &mut scratch,
    );
    print_label(rt, format_args!("{name}, missing"), &new, &old, answer)
}

fn given(rt: &impl Print) -> io::Result<()> {
    for (name, new, old) in [
        ("N R", N, R),
        ("R M", R, M),
        (
            "Q P",
            "Q = ![+{a: end | b: end}]; end .",
            "P = ![+{a: end}]; end .",
        ),
        ("yes", R, R),
        ("another reason", "A = end .", "B = ?(); end ."),
        ("refused", "A = A .", R),
    ] {
        show(rt, name, new, old)?;
    }
    Ok(())
}

fn show_found(rt: &impl Print, name: &str, new: &str, old: &str, found: Found) -> io::Result<()> {
    print_label(
        rt,
        format_args!("{name}, made by hand"),
        &Named::of(new),
        &Named::of(old),
        Ok(Verdict::No(found)),
    )
}

// A mismatch of reason 23 at the two starts, in turn 0, of the label at position 0; no step is looked at.
const FOUND: Found = Found {
    reason: 23,
    detail: 0,
    new: 0,
    old: 0,
    turn: 0,
    steps: 0,
};

// "An answer handed in for this fits exactly if .."
fn by_hand(rt: &impl Print) -> io::Result<()> {
    for (name, reason, detail, new, old, turn) in [
        ("the old one's first", 23, 0, 0, 0, 0),
        ("the old one's last", 23, 2, 0, 0, 0),
        ("past the old one's last", 23, 3, 0, 0, 0),
        ("the new one's last", 23, 1, 0, 0, 1),
        ("past the new one's last", 23, 2, 0, 0, 1),
        ("turn 2", 23, 0, 0, 0, 2),
        ("reason 22", 22, 0, 0, 0, 0),
        ("two kinds of choice", 23, 0, 0, 2, 0),
        ("no choices", 23, 0, 1, 1, 0),
        ("new node 5", 23, 0, 5, 0, 0),
        ("old node 5", 23, 0, 0, 5, 0),
    ] {
        let found = Found {
            reason,
            detail,
            new,
            old,
            turn,
            steps: 0,
        };
        show_found(rt, name, R, M, found)?;
    }
    show_found(rt, "not well formed", "A = A .", M, FOUND)
}

pub fn cases(rt: &impl Print) -> io::Result<()> {
    given(rt)?;
    by_hand(rt)
}
