// Each reason, which goes first, and each in turn 1.
use crate::lists::{compatibles, verdicts};
use std::io;

fn kinds_and_counts(rt: &impl Print) -> io::Result<()> {
    verdicts(
        rt,
        "sent and received: A = ?(); end . / B = ![]; end .\n\
        replies and commands: A = &{a: end} . / B = +{a: end} .\n\
        kinds before counts: A = ?(void); end . / B = ![]; end .\n\
        two items and one: A = ?(void, void); end . / B = ?(void); end .\n\
        counts before sorts: A = ![float, float]; end . / B = ![string]; end .\n",
    )
}

// 22: "sort against session, or two different sorts; detail is the first such position"
fn items(rt: &impl Print) -> io::Result<()> {
    verdicts(
        rt,
        "third item: A = ?(void, end, string); end . / B = ?(void, end, float); end .\n\
        fourth item: A = ![void, void, void, float]; end . / B = ![void, void, void, boolean]; end .\n\
        two items differ: A = ?(void, string, float); end . / B = ?(void, float, string); end .\n\
        session against sort: A = ?(void, end); end . / B = ?(void, void); end .\n\
        sort against session: A = ?(void); end . / B = ?(end); end .\n",
    )
}

// 23: for `+` the old one lists and the new one must have, for `&` the other way round.
fn labels(rt: &impl Print) -> io::Result<()> {
    verdicts(
        rt,
        "reply of the new one: A = &{b: end | a: end} . / B = &{a: end | c: end} .\n\
        command of the old one: A = +{b: end | a: end} . / B = +{a: end | c: end} .\n\
        first of two missing: A = +{a: end} . / B = +{a: end | c: end | b: end} .\n\
        fewer replies: A = &{a: end} . / B = &{b: end | a: end} .\n\
        more commands: A = +{b: end | a: end} . / B = +{a: end} .\n\
        labels in another order: A = +{a: end | b: ?(); end} . / B = +{b: ?(); end | a: end} .\n",
    )
}

// In turn 1 the old one's node is the left one; new and old are still printed in that order.
fn turned(rt: &impl Print) -> io::Result<()> {
    verdicts(
        rt,
        "kinds in turn 1: A = ![end]; end . / B = ![?(); end]; end .\n\
        counts in turn 1: A = ![?(); end]; end . / B = ![?(void); end]; end .\n\
        items in turn 1: A = ![?(void, string); end]; end . / B = ![?(void, float); end]; end .\n\
        more replies in turn 1: A = ![&{a: end | b: end}]; end . / B = ![&{a: end}]; end .\n\
        fewer replies in turn 1: A = ![&{a: end}]; end . / B = ![&{a: end | b: end}]; end .\n\
        two nodes in turn 1: A = ![X]; end . Y = end . X = &{a: end} . / B = ![&{a: end | b: end}]; end .\n",
    )
}

// "Stepping into an item of `?` keeps left and right; into an item of `!` it turns them."
fn turned_back(rt: &impl Print) -> io::Result<()> {
    verdicts(
        rt,
        "fewer commands, turned back: A = ![![+{a: end}]; end]; end . / B = ![![+{a: end | b: end}]; end]; end .\n\
        more commands, turned back: A = ![![+{a: end | b: end}]; end]; end . / B = ![![+{a: end}]; end]; end .\n\
        fewer commands, received: A = ?(+{a: end}); end . / B = ?(+{a: end | b: end}); end .\n\
        more commands, received: A = ?(+{a: end | b: end}); end . / B = ?(+{a: end}); end .\n\
        one pair in both turns: A = ![A]; end . / A = ![A]; end .\n",
    )
}

fn compatible(rt: &impl Print) -> io::Result<()> {
    compatibles(
        rt,
        "both end: A = end . / B = end .\n\
        both receive: A = ?(); end . / B = ?(); end .\n\
        one item more is sent: A = ?(); end . / B = ![void]; end .\n\
        another sort is sent: A = ?(void, string); end . / B = ![void, float]; end .\n\
        label missing in the new one: A = +{a: end} . / B = &{a: end | b: end} .\n\
        label more in the new one: A = +{a: end | b: end} . / B = &{a: end} .\n\
        label missing in the other one: A = &{a: end | b: end} . / B = +{a: end} .\n\
        label more in the other one: A = &{a: end} . / B = +{a: end | b: end} .\n",
    )
}

pub fn cases(rt: &impl Print) -> io::Result<()> {
    kinds_and_counts(rt)?;
    items(rt)?;
    labels(rt)?;
    turned(rt)?;
    turned_back(rt)?;
    compatible(rt)
}
