// Compatible where sessions are handed over: "a session item is not turned round", and its node is one of the originals in the dual.
use crate::lists::compatibles;
use std::io;

// The dual of `A = ![A]; end .` "is `?` of A itself, then `end`". Figure 4 to the letter would be the last one.
fn own_session(rt: &impl Print) -> io::Result<()> {
    compatibles(
        rt,
        "its dual with own session: D = ?(A); end . A = ![A]; end . / A = ![A]; end .\n\
        own session with its dual: A = ![A]; end . / D = ?(A); end . A = ![A]; end .\n\
        own session with itself: A = ![A]; end . / A = ![A]; end .\n\
        figure 4 to the letter: D = ?(D); end . / A = ![A]; end .\n",
    )
}

// Whoever takes a session over must have each command of the one that is handed over.
fn choices(rt: &impl Print) -> io::Result<()> {
    compatibles(
        rt,
        "two commands handed over, one taken: A = ![P]; end . P = +{a: end | b: end} . / A = ?(P); end . P = +{a: end} .\n\
        two commands taken, one handed over: A = ?(P); end . P = +{a: end | b: end} . / A = ![P]; end . P = +{a: end} .\n\
        one command handed over, two taken: A = ![P]; end . P = +{a: end} . / A = ?(P); end . P = +{a: end | b: end} .\n\
        one command taken, two handed over: A = ?(P); end . P = +{a: end} . / A = ![P]; end . P = +{a: end | b: end} .\n",
    )
}

// H hands a session over, K takes one over: 7 nodes each, of which the session has 2 to 6, and in the dual its originals 9 to 13.
fn whole_sessions(rt: &impl Print) -> io::Result<()> {
    compatibles(
        rt,
        "R handed over, R taken: H = ![R]; end . R = +{sum: ![string]; &{ok: ?(float); R | bad: R} | stop: end} . / K = ?(R); end . R = +{sum: ![string]; &{ok: ?(float); R | bad: R} | stop: end} .\n\
        N handed over, R taken: H = ![N]; end . N = +{sum: ![string]; &{ok: ?(float); N | late: N} | stop: end} . / K = ?(R); end . R = +{sum: ![string]; &{ok: ?(float); R | bad: R} | stop: end} .\n\
        R handed over, M taken: H = ![R]; end . R = +{sum: ![string]; &{ok: ?(float); R | bad: R} | stop: end} . / K = ?(M); end . M = +{sum: ![string]; &{ok: ?(float); M} | stop: end | reset: M} .\n\
        M handed over, R taken: H = ![M]; end . M = +{sum: ![string]; &{ok: ?(float); M} | stop: end | reset: M} . / K = ?(R); end . R = +{sum: ![string]; &{ok: ?(float); R | bad: R} | stop: end} .\n\
        R taken, R handed over: K = ?(R); end . R = +{sum: ![string]; &{ok: ?(float); R | bad: R} | stop: end} . / H = ![R]; end . R = +{sum: ![string]; &{ok: ?(float); R | bad: R} | stop: end} .\n\
        R taken, N handed over: K = ?(R); end . R = +{sum: ![string]; &{ok: ?(float); R | bad: R} | stop: end} . / H = ![N]; end . N = +{sum: ![string]; &{ok: ?(float); N | late: N} | stop: end} .\n",
    )
}

pub fn cases(rt: &impl Print) -> io::Result<()> {
    own_session(rt)?;
    choices(rt)?;
    whole_sessions(rt)
}
