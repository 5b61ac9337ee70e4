// "4,096 bytes, 64 nodes, 16 labels, 4 items and 16 open brackets pass; one more does not." The same holds of 96 definitions and of
// words of 16 bytes.
use crate::show::{show, show_lines};
use crate::texts::{
    LongText, chained, defined, show_all, show_behind, show_filled, show_nested, show_repeated,
};
use std::io;

// The longer text is 1 whatever is in it.
fn bytes(rt: &impl Print) -> io::Result<()> {
    for (name, text, len) in [
        ("4,096 bytes, blanks behind", "A = end .", 4096),
        ("4,097 bytes, blanks behind", "A = end .", 4097),
        ("4,096 bytes, no full stop", "A = end", 4096),
        ("4,097 bytes, no full stop", "A = end", 4097),
    ] {
        show_filled(rt, name, text, len)?;
    }
    for (name, byte, len) in [
        ("4,096 bytes of 0", 0, 4096),
        ("4,097 bytes of 0", 0, 4097),
        ("4,096 letters", b'x', 4096),
        ("4,097 letters", b'x', 4097),
    ] {
        show_all(rt, name, byte, len)?;
    }
    Ok(())
}

// `A = +{a: A} .` has 13 bytes: behind 4,083 blanks its label stands at 4,083 + 6. `A = B .` and `A = A .` have 7: behind 4,089 blanks the
// name stands there, and its use at 4,089 + 4.
fn far_places(rt: &impl Print) -> io::Result<()> {
    for (name, blanks, text) in [
        ("4,096 bytes, blanks before", 4083, "A = +{a: A} ."),
        ("4,097 bytes, blanks before", 4084, "A = +{a: A} ."),
        ("4,096 bytes, undefined", 4089, "A = B ."),
        ("4,096 bytes, a round", 4089, "A = A ."),
    ] {
        show_behind(rt, name, blanks, text)?;
    }
    Ok(())
}

fn words(rt: &impl Print) -> io::Result<()> {
    show_lines(
        rt,
        "name of 16 bytes: abcdefghijklmnop = end .\n\
        name of 17 bytes: abcdefghijklmnopq = end .\n\
        label of 16 bytes: A = +{abcdefghijklmnop: A} .\n\
        label of 17 bytes: A = +{abcdefghijklmnopq: A} .\n\
        used name of 16 bytes: abcdefghijklmnop = ?(abcdefghijklmnop); abcdefghijklmnop .\n\
        used name of 17 bytes: A = abcdefghijklmnopq .\n\
        item of 17 bytes: A = ?(abcdefghijklmnopq); end .\n\
        continuation of 17 bytes: A = ?(); abcdefghijklmnopq .\n",
    )
}

fn last_bytes(rt: &impl Print) -> io::Result<()> {
    show_lines(
        rt,
        "16 bytes, of which the last differs: abcdefghijklmno1 = ?(); abcdefghijklmno2 . abcdefghijklmno2 = end .\n\
        17 bytes that begin with end: A = end_end_end_end_1 .\n\
        17 bytes, 16 of them digits: A1234567890123456 = end .\n",
    )
}

// 15 brackets of all three kinds take 4 + 5 * 8 bytes, and `&{a:` 4 more: then a sign stands at 48, and its bracket at 49.
fn mixed_brackets(rt: &impl Print) -> io::Result<()> {
    for (name, behind) in [
        ("17 open, the last (", "&{a:?("),
        ("17 open, the last [", "&{a:!["),
        ("17 open, the last {", "&{a:+{"),
        ("16 open and [ behind ?", "&{a:?["),
        ("16 open and ( behind !", "&{a:!("),
        ("16 open and ( behind &", "&{a:&("),
    ] {
        show_repeated(rt, name, "A = ", 5, "?(![+{a:", behind)?;
    }
    Ok(())
}

// The 17th of brackets of two bytes each stands at 4 + 16 * 2 + 1, of four bytes each at 4 + 16 * 4 + 1.
fn brackets(rt: &impl Print) -> io::Result<()> {
    for (name, opening) in [
        ("17 open (", "?("),
        ("17 open [", "!["),
        ("17 open {", "+{a:"),
    ] {
        show_repeated(rt, name, "A = ", 17, opening, "")?;
    }
    Ok(())
}

// The nodes of the first text are the 16 that open a bracket, the innermost `end`, and then, from the innermost message outwards, the `end`
// that each message goes on to.
fn open_and_closed(rt: &impl Print) -> io::Result<()> {
    for (name, n, opening, inside, closing) in [
        (
            "16 open, of all three kinds",
            5,
            "?(![+{a:",
            "&{a:end}",
            "}];end);end",
        ),
        ("16 open (", 16, "?(", "A", ");A"),
        ("16 open {", 16, "+{a:", "A", "}"),
        (
            "16 open, closed and open again",
            15,
            "+{a:",
            "?();![];end",
            "}",
        ),
    ] {
        show_nested(rt, name, n, opening, inside, closing)?;
    }
    Ok(())
}

// The 17th label stands at 6 + 16 * 4, behind an `end` each at 6 + 16 * 6.
fn labels(rt: &impl Print) -> io::Result<()> {
    show_lines(
        rt,
        "16 labels: A = +{a:A|b:A|c:A|d:A|e:A|f:A|g:A|h:A|i:A|j:A|k:A|l:A|m:A|n:A|o:A|p:A} .\n\
        17 labels: A = +{a:A|b:A|c:A|d:A|e:A|f:A|g:A|h:A|i:A|j:A|k:A|l:A|m:A|n:A|o:A|p:A|q:A} .\n\
        17th label begun: A = +{a:A|b:A|c:A|d:A|e:A|f:A|g:A|h:A|i:A|j:A|k:A|l:A|m:A|n:A|o:A|p:A|q\n\
        16 labels, an end each: A = &{a:end|b:end|c:end|d:end|e:end|f:end|g:end|h:end|i:end|j:end|k:end|l:end|m:end|n:end|o:end|p:end} .\n\
        17 labels, an end each: A = &{a:end|b:end|c:end|d:end|e:end|f:end|g:end|h:end|i:end|j:end|k:end|l:end|m:end|n:end|o:end|p:end|q:end} .\n",
    )
}

// The inner choice begins at 8 and its labels at 10: a 17th of them stands at 10 + 16 * 4. 16 of them end at 73, the outer 15 others at
// 74 + 15 * 4; behind that and a `|` a 17th outer label stands at 135.
fn labels_inside(rt: &impl Print) -> io::Result<()> {
    show_lines(
        rt,
        "16 labels, the first with 16: A = +{a:&{a:A|b:A|c:A|d:A|e:A|f:A|g:A|h:A|i:A|j:A|k:A|l:A|m:A|n:A|o:A|p:A}|b:A|c:A|d:A|e:A|f:A|g:A|h:A|i:A|j:A|k:A|l:A|m:A|n:A|o:A|p:A} .\n\
        17 labels, the first with 16: A = +{a:&{a:A|b:A|c:A|d:A|e:A|f:A|g:A|h:A|i:A|j:A|k:A|l:A|m:A|n:A|o:A|p:A}|b:A|c:A|d:A|e:A|f:A|g:A|h:A|i:A|j:A|k:A|l:A|m:A|n:A|o:A|p:A|q:A} .\n\
        16 labels, the first with 17: A = +{a:&{a:A|b:A|c:A|d:A|e:A|f:A|g:A|h:A|i:A|j:A|k:A|l:A|m:A|n:A|o:A|p:A|q:A}|b:A|c:A|d:A|e:A|f:A|g:A|h:A|i:A|j:A|k:A|l:A|m:A|n:A|o:A|p:A} .\n",
    )
}

// Items begin at 6. Behind `string,float,boolean,void,` that is 6 + 26, behind `A,A,A,A,` 6 + 8.
fn items(rt: &impl Print) -> io::Result<()> {
    show_lines(
        rt,
        "4 items: A = ?(void,void,void,void); end .\n\
        5 items: A = ![string,float,boolean,void,A]; end .\n\
        5 items, the last a sort: A = ?(A,A,A,A,void); A .\n\
        5 items, the last an end: A = ?(A,A,A,A,end); A .\n\
        5 items, the last a message: A = ?(A,A,A,A,?(); A); A .\n\
        5 items, the last a choice: A = ![A,A,A,A,&{a: A}]; A .\n",
    )
}

// The inner items begin at 8, and the fifth of them stands at 8 + 8. Behind `?(A,A,A,A);end,A,A,A,`, 21 bytes, an outer one stands at
// 6 + 21.
fn items_inside(rt: &impl Print) -> io::Result<()> {
    show_lines(
        rt,
        "4 items, the first with 4: A = ?(?(A,A,A,A);end,A,A,A); A .\n\
        5 items, the first with 4: A = ?(?(A,A,A,A);end,A,A,A,A); A .\n\
        4 items, the first with 5: A = ?(?(A,A,A,A,A);end,A,A,A); A .\n",
    )
}

// 64 messages of four bytes each end at 4 + 64 * 4, 63 at 4 + 63 * 4. Behind 63 a message has its first item 2 bytes on, a choice the type
// of its first label 4 bytes on.
fn nodes_in_a_row(rt: &impl Print) -> io::Result<()> {
    for (name, n, behind) in [
        ("64 nodes in a row", 63, "end ."),
        ("65 nodes in a row", 64, "end ."),
        ("65th node begun", 64, "!"),
        ("65th node an item", 63, "?(end); A ."),
        ("65th node behind a label", 63, "+{a:end} ."),
        ("64 nodes and a name", 64, "A ."),
    ] {
        show_repeated(rt, name, "A = ", n, "?();", behind)?;
    }
    Ok(())
}

// A definition of 8 nodes is 35 bytes long: behind 5 bytes and 8 of them a ninth has its `end` at 5 + 8 * 35 + 3. `ah` is the eighth, which
// begins at node 7 * 8.
fn nodes_apart(rt: &impl Print) -> io::Result<()> {
    let eight = defined(
        LongText::of("S=ah."),
        8,
        "=?();?();?();?();?();?();?();end.",
    );
    show(rt, "64 nodes, 8 to a definition", eight.bytes())?;
    show(
        rt,
        "65 nodes, 8 to a definition",
        eight.and("ai=end.").bytes(),
    )
}

// 95 definitions of six bytes each, of which each leads to the next, then `dr`, which leads to an `end`: 577 bytes.
// Such a text takes the interpreter of `rt try` up to a seventh of the steps that it has, so there are few of them.
fn definitions(rt: &impl Print) -> io::Result<()> {
    let last = chained(95).and("dr=end.");
    show(rt, "96 definitions", last.bytes())?;
    show(rt, "97 definitions", last.and("ds=end.").bytes())
}

pub fn cases(rt: &impl Print) -> io::Result<()> {
    bytes(rt)?;
    far_places(rt)?;
    words(rt)?;
    last_bytes(rt)?;
    mixed_brackets(rt)?;
    brackets(rt)?;
    open_and_closed(rt)?;
    labels(rt)?;
    labels_inside(rt)?;
    items(rt)?;
    items_inside(rt)?;
    nodes_in_a_row(rt)?;
    nodes_apart(rt)?;
    definitions(rt)
}
