// How an answer is printed: as in the printed verdict, and of a refusal number and place.
use std::fmt;
use table::answers::{Found, Refusal, Verdict};

#[derive(Clone, Copy)]
pub struct Shown(pub Result<Verdict, Refusal>);

impl fmt::Display for Shown {
    fn fmt<W: fmt::Write>(&self, f: &mut fmt::Formatter<W>) -> fmt::Result {
        match self.0 {
            Ok(Verdict::Yes(count)) => write!(f, "yes {count}"),
            Ok(Verdict::No(found)) => {
                let Found {
                    reason,
                    detail,
                    new,
                    old,
                    turn,
                    ..
                } = found;
                write!(f, "no {reason} {detail} {new} {old} {turn}")
            }
            Err(Refusal { kind, place }) => {
                let number = kind as usize;
                write!(f, "refused {number} {place}")
            }
        }
    }
}

// How many steps an answer speaks of.
pub fn steps(answer: Result<Verdict, Refusal>) -> usize {
    match answer {
        Ok(Verdict::No(found)) => found.steps,
        Ok(Verdict::Yes(_)) | Err(_) => 0,
    }
}
