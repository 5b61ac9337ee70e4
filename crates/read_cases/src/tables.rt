// Texts that are taken, with their tables, and names that lead nowhere.
use crate::show::{show_lines, show_places};
use std::io;

// The texts that document 01 names.
fn named(rt: &impl Print) -> io::Result<()> {
    show_lines(
        rt,
        "R: R = +{sum: ![string]; &{ok: ?(float); R | bad: R} | stop: end} .\n\
        N: N = +{sum: ![string]; &{ok: ?(float); N | late: N} | stop: end} .\n\
        M: M = +{sum: ![string]; &{ok: ?(float); M} | stop: end | reset: M} .\n\
        P: P = ![+{a: end}]; end .\n\
        Q: Q = ![+{a: end | b: end}]; end .\n\
        own session: A = ![A]; end .\n",
    )
}

// The other texts of its first table.
fn compared(rt: &impl Print) -> io::Result<()> {
    show_lines(
        rt,
        "one end: A = end .\n\
        no items: B = ?(); end .\n\
        one void: B = ?(void); end .\n\
        one string: A = ?(string); end .\n\
        one float: B = ?(float); end .\n\
        round of one message: A = ?(string); A .\n\
        round of two messages: B = ?(string); ?(string); B .\n",
    )
}

fn lists(rt: &impl Print) -> io::Result<()> {
    show_lines(
        rt,
        "the four sorts: A = ?(string, float, boolean, void); ![void, boolean, float, string]; A .\n\
        end in a list: A = ?(end); end .\n\
        sorts and sessions: A = ![string, end, A, ?(); A]; end .\n\
        choice in an item in a choice: A = +{a: ?(&{b: ![A]; A}); A} .\n\
        numbered by place: A = ?(+{a: end | b: ![boolean]; end}, float, &{c: B}); B . B = end .\n",
    )?;
    show_places(
        rt,
        "one label in two choices",
        b"A = +{a: &{a: end | b: A} | b: end} .",
    )
}

fn names(rt: &impl Print) -> io::Result<()> {
    show_lines(
        rt,
        "name before its definition: A = ?(); B . B = end .\n\
        name behind its definition: A = end . B = ?(); A .\n\
        through names forward: A = B . B = C . C = end .\n\
        through names backward: C = end . B = C . A = ?(A); B .\n\
        name as every item: A = ![A, A, A, A]; A .\n\
        names everywhere: S = T . E = end . F = E . L = &{go: F | back: S | stay: L} . T = ![F, L, string, T]; L .\n\
        everywhere through names: A = +{x: N1 | y: N2} . N1 = N2 . N2 = N3 . N3 = ?(N1, A, void); N2 .\n",
    )
}

// "the first definition gives the start", "Nodes that nothing reaches are allowed."
fn starts(rt: &impl Print) -> io::Result<()> {
    show_lines(
        rt,
        "start through a name: A = C . B = end . C = ?(); B .\n\
        start through three names: A = B . B = C . C = D . X = end . D = ?(X, A); B .\n\
        start at the last node: A = B . C = end . D = ![C]; A . B = &{l: D | m: A | n: C} .\n\
        definitions that nothing reaches: A = end . B = +{a: end | b: B} . C = B .\n",
    )
}

// 8: "the first such use in the text"
fn undefined(rt: &impl Print) -> io::Result<()> {
    show_lines(
        rt,
        "undefined in what nothing reaches: A = end . B = C .\n\
        undefined item and continuation: A = ?(C); B .\n\
        undefined under two labels: A = +{x: Y | y: X} .\n\
        undefined in two definitions: A = ?(B); C . B = D .\n\
        undefined and used twice: A = ?(void, B); B .\n",
    )
}

// 9: "a definition whose names lead round and never to a node", "its name, the first such"
fn rounds(rt: &impl Print) -> io::Result<()> {
    show_lines(
        rt,
        "round of two: A = B . B = A .\n\
        round of three behind an end: A = end . B = C . C = D . D = B .\n\
        round behind a message: A = ?(); B . B = C . C = B .\n\
        leads into a later round: A = end . D = B . B = C . C = B .\n\
        leads into an earlier round: A = end . B = B . C = B .\n\
        two rounds: A = end . B = B . C = C .\n\
        round through a message is none: A = B . B = ?(A); A .\n",
    )
}

pub fn cases(rt: &impl Print) -> io::Result<()> {
    named(rt)?;
    compared(rt)?;
    lists(rt)?;
    names(rt)?;
    starts(rt)?;
    undefined(rt)?;
    rounds(rt)
}
