// The texts that document 01 names.

pub const R: &str = "R = +{sum: ![string]; &{ok: ?(float); R | bad: R} | stop: end} .";

pub const N: &str = "N = +{sum: ![string]; &{ok: ?(float); N | late: N} | stop: end} .";

pub const M: &str = "M = +{sum: ![string]; &{ok: ?(float); M} | stop: end | reset: M} .";

pub const P: &str = "P = ![+{a: end}]; end .";

pub const Q: &str = "Q = ![+{a: end | b: end}]; end .";
