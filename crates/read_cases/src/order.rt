// "1 first; then 2 to 7, the least place, and at one place the lowest number; then 8; then 9."
use crate::show::{show, show_lines};
use crate::texts::{chained, show_repeated};
use std::io;

// A word of 17 bytes where no word may stand.
fn two_and_three(rt: &impl Print) -> io::Result<()> {
    show_lines(
        rt,
        "2 before 3 for =: A xxxxxxxxxxxxxxxxx = end .\n\
        2 before 3 for a colon: A = +{a xxxxxxxxxxxxxxxxx: A} .\n\
        2 before 3 behind an item: A = ?(void xxxxxxxxxxxxxxxxx); A .\n",
    )
}

// Labels of four bytes each: the 16th stands at 6 + 15 * 4, and a 17th at 6 + 16 * 4.
fn at_the_last_label(rt: &impl Print) -> io::Result<()> {
    show_lines(
        rt,
        "2 before 5 at a label: A = +{a:A|b:A|c:A|d:A|e:A|f:A|g:A|h:A|i:A|j:A|k:A|l:A|m:A|n:A|o:A|p:A|void:A} .\n\
        2 before 5 where no label is: A = +{a:A|b:A|c:A|d:A|e:A|f:A|g:A|h:A|i:A|j:A|k:A|l:A|m:A|n:A|o:A|p:A|} .\n\
        3 before 5 at a label: A = +{a:A|b:A|c:A|d:A|e:A|f:A|g:A|h:A|i:A|j:A|k:A|l:A|m:A|n:A|o:A|p:A|xxxxxxxxxxxxxxxxx:A} .\n\
        5 before 6 at the first label again: A = +{a:A|b:A|c:A|d:A|e:A|f:A|g:A|h:A|i:A|j:A|k:A|l:A|m:A|n:A|o:A|p:A|a:A} .\n\
        5 before 6 at the last label again: A = +{a:A|b:A|c:A|d:A|e:A|f:A|g:A|h:A|i:A|j:A|k:A|l:A|m:A|n:A|o:A|p:A|p:A} .\n\
        6 at the 16th label: A = +{a:A|b:A|c:A|d:A|e:A|f:A|g:A|h:A|i:A|j:A|k:A|l:A|m:A|n:A|o:A|a:A|q:A} .\n",
    )
}

fn at_a_label(rt: &impl Print) -> io::Result<()> {
    show_lines(
        rt,
        "2 before 6: A = +{end: A | end: A} .\n\
        3 before 6: A = +{xxxxxxxxxxxxxxxxx: A | xxxxxxxxxxxxxxxxx: A} .\n\
        3 at the same 16 bytes and one more: A = +{abcdefghijklmnop:A|abcdefghijklmnopq:A} .\n",
    )
}

// Behind 96 definitions, of 95 * 6 + 7 bytes, a 97th that is begun.
fn at_the_last_definition(rt: &impl Print) -> io::Result<()> {
    let text = chained(95).and("dr=end.aa");
    show(rt, "5 before 7 at a definition begun", text.bytes())
}

fn at_a_definition(rt: &impl Print) -> io::Result<()> {
    show_lines(
        rt,
        "2 before 7: end = end . end = end .\n\
        3 before 7: xxxxxxxxxxxxxxxxx = end . xxxxxxxxxxxxxxxxx = end .\n\
        3 at the same 16 bytes of a name: abcdefghijklmnop = end . abcdefghijklmnopq = end .\n",
    )
}

fn at_an_item(rt: &impl Print) -> io::Result<()> {
    show_lines(
        rt,
        "2 before 5 at an item: A = ![A,A,A,A,]; end .\n\
        3 before 5 at an item: A = ![A,A,A,A,xxxxxxxxxxxxxxxxx]; end .\n",
    )
}

// Two faults at two places: the first goes first, whatever the numbers.
fn least_place(rt: &impl Print) -> io::Result<()> {
    show_lines(
        rt,
        "6, then 2: A = +{m: A | m: A} = .\n\
        2, then 6: A = +{m: = | m: A} .\n\
        7, then 2: A = end . A = = .\n\
        2, then 7: A = = . A = end . A = end .\n\
        6, then 7: A = +{m:A|m:A} . A = end .\n\
        7, then 6: A = end . A = +{m:A|m:A} .\n\
        5, then 3: A = ?(A,A,A,A,A,xxxxxxxxxxxxxxxxx); A .\n\
        3, then 5: A = ?(xxxxxxxxxxxxxxxxx,A,A,A,A); A .\n\
        4, then 2: A = ?(?(?(?(?(?(?(?(?(?(?(?(?(?(?(?(?(=\n",
    )?;
    show_repeated(
        rt,
        "5, then 4",
        "A = ",
        64,
        "?();",
        "?(?(?(?(?(?(?(?(?(?(?(?(?(?(?(?(?(",
    )
}

// 8 and 9 come last, whatever their places.
fn names_last(rt: &impl Print) -> io::Result<()> {
    show_lines(
        rt,
        "7 before an 8 further left: A = B . A = end .\n\
        6 before an 8 further left: A = B . C = +{m:C|m:C} .\n\
        3 before an 8 further left: A = B . C = xxxxxxxxxxxxxxxxx .\n\
        6 before a 9 further left: A = A . B = +{m:B|m:B} .\n\
        7 before a 9 further left: A = A . A = end .\n\
        2 before an 8 and a 9 further left: A = A . B = C . =\n\
        8 behind a round of two: A = B . B = A . C = D .\n\
        8 inside a message: A = A . B = ?(C); B .\n",
    )
}

pub fn cases(rt: &impl Print) -> io::Result<()> {
    two_and_three(rt)?;
    at_the_last_label(rt)?;
    at_a_label(rt)?;
    at_the_last_definition(rt)?;
    at_a_definition(rt)?;
    at_an_item(rt)?;
    least_place(rt)?;
    names_last(rt)
}
