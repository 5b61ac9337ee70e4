// 2: a "token that no text of the notation could have there". One token wrong, left out or too many, at each place of the notation.
use crate::show::show_lines;
use std::io;

fn definitions(rt: &impl Print) -> io::Result<()> {
    show_lines(
        rt,
        "no name: = end .\n\
        no =: A end .\n\
        = twice: A == end .\n\
        no type: A = .\n\
        no full stop between: A = end B = end .\n\
        full stop twice: A = end . .\n\
        full stop first: . A = end .\n\
        second definition begun: A = end . B\n\
        end twice: A = end end .\n\
        two names for a type: A = B C .\n",
    )
}

fn types(rt: &impl Print) -> io::Result<()> {
    show_lines(
        rt,
        "sort goes on: A = ?(); void .\n\
        sort behind a label: A = +{a: float} .\n\
        closed and not opened: A = end) .\n\
        closing bracket for a type: A = ) .\n\
        type in brackets: A = (end) .\n\
        list without a sign: A = {a: end} .\n\
        end goes on: A = end; end .\n\
        sign alone: A = ! .\n\
        sign twice: A = ??(); end .\n",
    )
}

fn brackets(rt: &impl Print) -> io::Result<()> {
    show_lines(
        rt,
        "[ behind ?: A = ?[string]; end .\n\
        { behind ?: A = ?{string}; end .\n\
        ( behind !: A = !(string); end .\n\
        { behind !: A = !{string}; end .\n\
        ( behind +: A = +(a: end) .\n\
        [ behind &: A = &[a: end] .\n\
        ] closes (: A = ?(void]; end .\n\
        } closes (: A = ?(void}; end .\n\
        ) closes [: A = ![void); end .\n\
        ) closes {: A = +{a: end) .\n\
        ] closes {: A = &{a: end] .\n",
    )
}

fn items(rt: &impl Print) -> io::Result<()> {
    show_lines(
        rt,
        "no list: A = ? end .\n\
        no semicolon: A = ?() end .\n\
        no continuation: A = ?(); .\n\
        full stop behind a list: A = ?() .\n\
        comma first: A = ?(,void); end .\n\
        comma last: A = ?(void,); end .\n\
        comma twice: A = ?(void,,void); end .\n\
        comma alone: A = ?(,); end .\n\
        no comma: A = ?(void void); end .\n\
        semicolon for a comma: A = ?(void; void); end .\n\
        label in a list of items: A = ?(a: end); end .\n\
        list that ends with the text: A = ?(void\n",
    )
}

fn labels(rt: &impl Print) -> io::Result<()> {
    show_lines(
        rt,
        "no label: A = &{} .\n\
        no colon: A = +{a end} .\n\
        no colon and no type: A = +{a} .\n\
        no label before a colon: A = +{: end} .\n\
        no type behind a colon: A = +{a:} .\n\
        colon twice: A = +{a:: end} .\n\
        bar first: A = +{| a: end} .\n\
        bar last: A = +{a: end |} .\n\
        bar twice: A = +{a: end || b: end} .\n\
        no bar: A = +{a: end b: end} .\n\
        comma for a bar: A = +{a: end, b: end} .\n\
        choice goes on: A = +{a: end}; end .\n\
        choice not closed: A = +{a: end .\n",
    )
}

pub fn cases(rt: &impl Print) -> io::Result<()> {
    definitions(rt)?;
    types(rt)?;
    brackets(rt)?;
    items(rt)?;
    labels(rt)
}
