// "Room that a node's kind or the counts leave unused": "whatever makes a table fills it with 0 (`end`, `string`)".
use reader::read;
use showing::room::print_room;
use std::io;

pub fn cases(rt: &impl Print) -> io::Result<()> {
    for (name, text) in [
        (
            "R",
            "R = +{sum: ![string]; &{ok: ?(float); R | bad: R} | stop: end} .",
        ),
        (
            "16 labels and 4 items",
            "A = &{a:A|b:A|c:A|d:A|e:A|f:A|g:A|h:A|i:A|j:A|k:A|l:A|m:A|n:A|o:A|p:![A,A,A,A]; A} .",
        ),
        ("refused behind nodes", "A = ?(void); +{a: A | a"),
    ] {
        let made = read(text.as_bytes());
        print_room(rt, name, &made.table)?;
    }
    Ok(())
}
