// Whether one table may replace another. `may_replace` gives every two tables, with any name bytes and any lent areas, the reply that
// `Replaces` of `rules` allows, and asks nothing of its caller. The search goes over pairs, breadth first, in the lent areas alone: the
// crate `search` keeps them, the crate `pairs` says what is wrong with a pair and where its steps lead.
#![tactic(auto)]

mod entry;
mod sizes;

ghost use Rattle.std.specs.Prelude.{true, Ok, Some, ◌≡◌, length};
ghost use Rattle.rules.specs.Formed.{well_formed};
ghost use Rattle.rules.specs.Replies.{Replaces, NoRefusal, pair_count, scratch_size};
ghost use Rattle.replace.specs.State.{EndedAt, found_at, Concludable, Concludes};

use crate::entry::{Entry, Side};
use crate::sizes::{Pair, Sizes};
use formed::well_formed;
use pairs::{detail, reason};
use search::{begin, leave_marks, leave_run};
use table::Table;
use table::answers::{Found, Mismatch, Refusal, RefusalKind, Verdict};

// The first entry with something wrong, and what is.
#[derive(Clone, Copy)]
struct FirstMismatch {
    at: usize,
    mismatch: Mismatch,
}

// The search, in areas of just the lengths that are needed, whatever they hold. It ends at the queue's end, which it answers, or at the first
// entry with something wrong. The areas are not a struct: they are lent, and with them in a struct each contract would have to say that they
// are the same ones afterwards.
fn explore(
    new: Table,
    new_names: &[u8],
    old: Table,
    old_names: &[u8],
    marks: &mut [u8],
    scratch: &mut [u16],
) -> Result<usize, FirstMismatch>
    requires { (well_formed new new_names.now ≡ true) × (well_formed old old_names.now ≡ true) × (length marks.old ≡ pair_count new old) × (length scratch.old ≡ scratch_size new old) }
    ensures { EndedAt new new_names.now old old_names.now marks.new scratch.new result }
{
    let sizes = Sizes::new(new.count, old.count);
    let starts = Pair {
        turn: 0,
        new: usize::from(new.start),
        old: usize::from(old.start),
    };
    begin(sizes.pair_count(), sizes.mark_place(starts), marks, scratch);
    let mut at = 0;
    let mut tail = 1;
    // Not a `for`: an entry's steps put others at the end.
    while at < tail {
        let pair = sizes.pair_at(usize::from(scratch[at]));
        let x = Side {
            node: &new.nodes[pair.new],
            names: new_names,
        };
        let y = Side {
            node: &old.nodes[pair.old],
            names: old_names,
        };
        let entry = Entry {
            sizes,
            turn: pair.turn,
            at,
        };
        tail = entry
            .take_nodes(x, y, tail, marks, scratch)
            .map_err(|mismatch| FirstMismatch { at, mismatch })?;
        at += 1;
    }
    Ok(tail)
}

// What is answered of a mismatch at the pair of a place.
fn found(sizes: Sizes, place: usize, mismatch: Mismatch, steps: usize) -> Found
    ensures { result ≡ found_at sizes.new sizes.old place (Some mismatch) steps }
{
    let pair = sizes.pair_at(place);
    Found {
        reason: reason(Some(mismatch)),
        detail: detail(Some(mismatch)),
        new: pair.new,
        old: pair.old,
        turn: pair.turn,
        steps,
    }
}

// The answer to the search's end, and what is left in the areas, which are just as long as is needed. It takes no table, so that a table is
// handed on once.
fn conclude(
    ended: Result<usize, FirstMismatch>,
    sizes: Sizes,
    marks: &mut [u8],
    path: &mut [u16],
    scratch: &mut [u16],
) -> Verdict
    requires { Concludable sizes.new sizes.old ended marks.old path.old scratch.old }
    ensures { Concludes sizes.new sizes.old ended marks.old path.old scratch.old marks.new path.new scratch.new result }
{
    match ended {
        Ok(count) => {
            leave_marks(marks, scratch);
            Verdict::Yes(count)
        }
        Err(FirstMismatch { at, mismatch }) => {
            let last = usize::from(scratch[at]);
            let steps = leave_run(sizes.pair_count(), at, marks, path, scratch);
            Verdict::No(found(sizes, last, mismatch, steps))
        }
    }
}

// The verdict on two well formed tables, in areas that are long enough. `may_replace` has looked for both; so has a caller who has read the
// tables from texts.
pub fn decide(
    new: Table,
    new_names: &[u8],
    old: Table,
    old_names: &[u8],
    marks: &mut [u8],
    path: &mut [u16],
    scratch: &mut [u16],
) -> Verdict
    requires { NoRefusal new new_names.now old old_names.now (record { marks = marks.old; path = path.old; scratch = scratch.old }) }
    ensures { Replaces new new_names.now old old_names.now (record { marks = marks.old; path = path.old; scratch = scratch.old }) (record { marks = marks.new; path = path.new; scratch = scratch.new }) (Ok result) }
{
    let sizes = Sizes::new(new.count, old.count);
    let size = sizes.pair_count();
    let marks = &mut marks[..size];
    let path = &mut path[..size];
    let scratch = &mut scratch[..size + size];
    let ended = explore(new, new_names, old, old_names, marks, scratch);
    conclude(ended, sizes, marks, path, scratch)
}

// Whether `new` may replace `old`: yes with the count of marks, no with what was found, or a refusal.
pub fn may_replace(
    new: Table,
    new_names: &[u8],
    old: Table,
    old_names: &[u8],
    marks: &mut [u8],
    path: &mut [u16],
    scratch: &mut [u16],
) -> Result<Verdict, Refusal>
    ensures { Replaces new new_names.now old old_names.now (record { marks = marks.old; path = path.old; scratch = scratch.old }) (record { marks = marks.new; path = path.new; scratch = scratch.new }) result }
{
    if !well_formed(new, new_names) {
        return Err(Refusal {
            kind: RefusalKind::NotWellFormed,
            place: 1,
        });
    }
    if !well_formed(old, old_names) {
        return Err(Refusal {
            kind: RefusalKind::NotWellFormed,
            place: 2,
        });
    }
    let sizes = Sizes::new(new.count, old.count);
    let size = sizes.pair_count();
    if marks.len() < size {
        return Err(Refusal {
            kind: RefusalKind::AreaTooShort,
            place: 1,
        });
    }
    if path.len() < size {
        return Err(Refusal {
            kind: RefusalKind::AreaTooShort,
            place: 2,
        });
    }
    if scratch.len() < size + size {
        return Err(Refusal {
            kind: RefusalKind::AreaTooShort,
            place: 3,
        });
    }
    Ok(decide(new, new_names, old, old_names, marks, path, scratch))
}
