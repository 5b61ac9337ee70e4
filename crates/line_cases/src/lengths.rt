// The lent areas are marks, path, scratch, and a fourth for the line: 2 × n × m, 2 × n × m, 4 × n × m, and 6 × n × m + 18. A refusal leaves
// all four as they were.
use crate::areas::show_each;
use crate::show::Asked;
use showing::text::Text;
use std::io;
use table::answers::Question;

// A text of three nodes, with a session item.
const GOOD: &str = "A = ![end]; end .";

// 2 and 3 nodes, so 12, 12, 24 and 54; the run has one step.
fn no(rt: &impl Print, lengths: &[[usize; 4]]) -> io::Result<()> {
    let asked = Asked::verdict("A = ?(string); end .", "B = ?(string); ?(); end .");
    show_each(rt, "no", asked, [12, 1, 24], lengths)
}

fn one_short(rt: &impl Print) -> io::Result<()> {
    no(
        rt,
        &[
            [12, 12, 24, 54],
            [11, 12, 24, 54],
            [12, 11, 24, 54],
            [12, 12, 23, 54],
            [12, 12, 24, 53],
            [12, 12, 24, 18],
            [12, 12, 24, 0],
        ],
    )
}

// "11 for the least area"
fn more_short(rt: &impl Print) -> io::Result<()> {
    no(
        rt,
        &[
            [11, 11, 24, 54],
            [11, 12, 23, 54],
            [11, 12, 24, 53],
            [12, 11, 23, 54],
            [12, 11, 24, 53],
            [12, 12, 23, 53],
            [0, 0, 0, 0],
        ],
    )
}

// "Any lent area may be longer than needed, and what is beyond stays."
fn longer(rt: &impl Print) -> io::Result<()> {
    no(
        rt,
        &[
            [13, 12, 24, 54],
            [12, 13, 24, 54],
            [12, 12, 25, 54],
            [12, 12, 24, 55],
            [60, 60, 120, 200],
            [60, 60, 120, 53],
            [11, 60, 120, 200],
        ],
    )
}

// 1 and 2 nodes, so 4, 4, 8 and 30; after a yes the path is untouched.
fn yes(rt: &impl Print) -> io::Result<()> {
    let asked = Asked::verdict("A = ?(string); A .", "B = ?(string); ?(string); B .");
    let lengths = [[4, 4, 8, 30], [4, 4, 8, 29], [60, 60, 120, 200]];
    show_each(rt, "yes", asked, [4, 0, 8], &lengths)
}

// A dual of 3 nodes with a session item has 6: the areas are those of 3 and 6 nodes.
fn with_dual(rt: &impl Print) -> io::Result<()> {
    let asked = Asked::compatible("A = ![end]; end .", "B = ?(end); end .");
    let lengths = [
        [36, 36, 72, 126],
        [35, 36, 72, 126],
        [36, 35, 72, 126],
        [36, 36, 71, 126],
        [36, 36, 72, 125],
        [18, 18, 36, 72],
    ];
    show_each(rt, "compatible", asked, [36, 0, 72], &lengths)
}

// Without a session item it has no more nodes than the other one.
fn turned_alone(rt: &impl Print) -> io::Result<()> {
    let asked = Asked::compatible("A = ?(); end .", "B = ![]; end .");
    let lengths = [[8, 8, 16, 42], [8, 8, 16, 41]];
    show_each(rt, "compatible without items", asked, [8, 0, 16], &lengths)
}

// A refused text has no nodes: the areas may be empty, and the line's has 18 bytes whatever the line.
fn refused(rt: &impl Print, name: &str, asked: Asked, lines: &[usize]) -> io::Result<()> {
    for line in lines {
        show_each(rt, name, asked, [0, 0, 0], &[[0, 0, 0, *line]])?;
    }
    Ok(())
}

fn first_refused(rt: &impl Print) -> io::Result<()> {
    let asked = Asked::verdict("A = end", GOOD);
    refused(rt, "first refused", asked, &[18, 17, 0, 200])?;
    let asked = Asked::compatible("A = end", GOOD);
    refused(rt, "compatible, first refused", asked, &[18, 17])
}

fn second_refused(rt: &impl Print) -> io::Result<()> {
    let asked = Asked::verdict(GOOD, "A = A .");
    refused(rt, "second refused", asked, &[18, 17])?;
    let asked = Asked::compatible(GOOD, "A = A .");
    refused(rt, "compatible, second refused", asked, &[18, 17])?;
    let asked = Asked::verdict("A = A .", "");
    refused(rt, "both refused", asked, &[18, 17])
}

// The longest line of a refusal has 17 bytes, and yet 17 are refused.
fn longest(rt: &impl Print) -> io::Result<()> {
    let blanks = Text::<4096>::all(b' ', 4096);
    let asked = Asked::Texts(Question::MayReplace, GOOD.as_bytes(), blanks.bytes());
    refused(rt, "longest refusal", asked, &[18, 17])
}

// With refused texts the other areas stay too.
fn long_and_refused(rt: &impl Print) -> io::Result<()> {
    for (name, asked) in [
        ("first refused", Asked::verdict("A = end", GOOD)),
        (
            "compatible, second refused",
            Asked::compatible(GOOD, "A = A ."),
        ),
    ] {
        show_each(rt, name, asked, [0, 0, 0], &[[60, 60, 120, 200]])?;
    }
    Ok(())
}

fn inputs(rt: &impl Print) -> io::Result<()> {
    let input = b"A = ?(string); end .\x00B = ?(string); ?(); end .";
    let asked = Asked::Input(Question::MayReplace, input);
    let lengths = [
        [12, 12, 24, 54],
        [11, 12, 24, 53],
        [12, 11, 24, 54],
        [12, 12, 23, 54],
        [12, 12, 24, 53],
    ];
    show_each(rt, "no of an input", asked, [12, 1, 24], &lengths)?;
    let input = b"A = ![end]; end .\x00B = ?(end); end .";
    let asked = Asked::Input(Question::IsCompatible, input);
    let lengths = [[36, 36, 72, 126], [36, 36, 72, 125], [18, 18, 36, 72]];
    show_each(rt, "compatible of an input", asked, [36, 0, 72], &lengths)
}

fn refused_inputs(rt: &impl Print) -> io::Result<()> {
    let asked = Asked::Input(Question::MayReplace, b"A = end .");
    refused(rt, "no zero", asked, &[18, 17])?;
    let asked = Asked::Input(Question::IsCompatible, b"");
    refused(rt, "nothing, compatible", asked, &[18, 17])
}

pub fn cases(rt: &impl Print) -> io::Result<()> {
    one_short(rt)?;
    more_short(rt)?;
    longer(rt)?;
    yes(rt)?;
    with_dual(rt)?;
    turned_alone(rt)?;
    first_refused(rt)?;
    second_refused(rt)?;
    longest(rt)?;
    long_and_refused(rt)?;
    inputs(rt)?;
    refused_inputs(rt)
}
