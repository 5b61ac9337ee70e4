// Areas of every length, and full of anything. Two nodes against three: 12 marks, 12 numbers of path, 24 of scratch.
use crate::areas::{Full, Named, Sizes, show};
use std::io;

pub fn cases(rt: &impl Print) -> io::Result<()> {
    let new = Named::of("A = ?(string); end .");
    let old = Named::of("A = ?(string); ?(); end .");
    for (marks, path, scratch, byte, number) in [
        (12, 12, 24, 0, 0),
        (12, 12, 24, 255, 65535),
        (13, 12, 24, 1, 1),
        (12, 17, 24, 2, 2),
        (12, 12, 30, 16, 12),
        (20, 20, 30, 7, 7),
        (11, 12, 24, 255, 65535),
        (12, 11, 24, 255, 65535),
        (12, 12, 23, 255, 65535),
        (11, 11, 24, 0, 0),
        (12, 11, 23, 0, 0),
        (0, 0, 0, 0, 0),
        (0, 20, 30, 0, 0),
        (20, 0, 30, 0, 0),
        (20, 20, 0, 0, 0),
    ] {
        let name = format_args!("areas of {marks} {path} {scratch}");
        let lent = Sizes {
            marks,
            path,
            scratch,
        };
        show(rt, name, &new, &old, 12, lent, Full { byte, number })?;
    }
    Ok(())
}
