// The second table of document 01, and the texts by which docs/DECISIONS.md settles what document 01 leaves open.
use crate::show::show_lines;
use std::io;

fn rows(rt: &impl Print) -> io::Result<()> {
    show_lines(
        rt,
        "row 1, empty: \n\
        row 2, no full stop: A = end\n\
        row 3, no label: A = +{} .\n\
        row 4, the wrong bracket closes: A = ![string) .\n\
        row 5, its own name: A = A .\n\
        row 6, never defined: A = B .\n\
        row 7, defined twice: A = end . A = end .\n\
        row 8, label twice: A = +{m: end | m: end} .\n",
    )
}

// What is begun counts; what cannot begin anything is 2.
fn begun(rt: &impl Print) -> io::Result<()> {
    show_lines(
        rt,
        "defined name begun again: A = end . A\n\
        label begun again: A = +{m: end | m\n\
        fifth item begun: A = ?(void,void,void,void,?=\n\
        comma behind the fourth item: A = ?(void,void,void,void,); end .\n\
        sort where a type stands: A = string .\n",
    )
}

// A word of 17 bytes is one token; at one place the lowest number goes first.
fn long_words(rt: &impl Print) -> io::Result<()> {
    show_lines(
        rt,
        "long word where no word may stand: A = end xxxxxxxxxxxxxxxxx\n\
        long word as a name: xxxxxxxxxxxxxxxxx = end .\n\
        long word as a fifth item: A = ?(void,void,void,void,xxxxxxxxxxxxxxxxx); end .\n",
    )
}

fn ends_and_blanks(rt: &impl Print) -> io::Result<()> {
    show_lines(
        rt,
        "end of the text behind blanks: A = end  \n\
        vertical tab is no blank: A = end\x0b.\n",
    )
}

fn names(rt: &impl Print) -> io::Result<()> {
    show_lines(
        rt,
        "leads into a round: A = B . B = B .\n\
        8 before a 9 further left: A = A . B = C .\n\
        round that nothing reaches: A = end . B = B .\n\
        label spelled like a definition: A = +{A: A} .\n\
        one name three times: A = end . B = end . A = end . A = end .\n\
        definitions that only each other use: A = end . B = ?(C); end . C = ?(B); end .\n",
    )
}

// 16 open brackets take 64 bytes behind the first 4; then a sign stands at 68.
fn brackets(rt: &impl Print) -> io::Result<()> {
    show_lines(
        rt,
        "wrong bracket where 16 are open: A = +{a:+{a:+{a:+{a:+{a:+{a:+{a:+{a:+{a:+{a:+{a:+{a:+{a:+{a:+{a:+{a:?[\n\
        right bracket where 16 are open: A = +{a:+{a:+{a:+{a:+{a:+{a:+{a:+{a:+{a:+{a:+{a:+{a:+{a:+{a:+{a:+{a:?(\n",
    )
}

// Words and signs that document 01 does not have.
fn not_there(rt: &impl Print) -> io::Result<()> {
    show_lines(
        rt,
        "short is a plain name: A = ?(short); end .\n\
        at sign begins no token: A = +{a @ 5 : end} .\n\
        number behind a label: A = +{a@5: end} .\n",
    )
}

pub fn cases(rt: &impl Print) -> io::Result<()> {
    rows(rt)?;
    begun(rt)?;
    long_words(rt)?;
    ends_and_blanks(rt)?;
    names(rt)?;
    brackets(rt)?;
    not_there(rt)
}
