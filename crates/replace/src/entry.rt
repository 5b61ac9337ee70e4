// An entry of the queue: what is wrong with its pair, and, where nothing is, the places that its steps lead to.

ghost use Rattle.std.specs.Prelude.{◌<◌};
ghost use Rattle.rules.specs.Numbers.{labels_most};
ghost use Rattle.rules.specs.Pairs.{turns_most, left_in, right_in};

use crate::sizes::{Sizes, pair_after};
use pairs::{compare, step, step_limit};
use search::visit;
use table::answers::Mismatch;
use table::{LABELS_MOST, Node};

// A node, and the name bytes of its table.
#[derive(Clone, Copy)]
pub struct Side<'a> {
    pub node: &'a Node,
    pub names: &'a [u8],
}

// Where the entry stands in the queue, and the turn of its pair.
// The queue's end and the two areas stay parameters beside it, as `visit` of `search` takes them: in a struct that holds them by `&mut`, each
// contract would have to say that they are the same ones afterwards.
#[derive(Clone, Copy)]
pub struct Entry {
    pub sizes: Sizes,
    pub turn: usize,
    pub at: usize,
    ghost turn_below: { turn < turns_most },
}

impl Entry {
    ghost use Rattle.replace.specs.Taking.{Ready, Leading, StepTaken, StepsTaken, Formed, Takes};

    // Takes step s. Answers the queue's new end.
    fn take_step(
        self,
        left: &Node,
        right: &Node,
        places: &[u8; LABELS_MOST],
        s: usize,
        tail: usize,
        marks: &mut [u8],
        scratch: &mut [u16],
    ) -> usize
        requires { Ready self (record { marks = marks.old; scratch = scratch.old; tail = tail }) × Leading self left.now right.now places.now × (s < labels_most) }
        ensures { StepTaken self left.now right.now places.now s (record { marks = marks.old; scratch = scratch.old; tail = tail }) (record { marks = marks.new; scratch = scratch.new; tail = result }) }
    {
        match step(left, right, places, s) {
            Some(onward) => {
                let to = self.sizes.mark_place(pair_after(self.turn, onward));
                let size = self.sizes.pair_count();
                visit(size, self.at, s, to, tail, marks, scratch)
            }
            None => tail,
        }
    }

    // Takes every step, in their order.
    fn expand(
        self,
        left: &Node,
        right: &Node,
        places: &[u8; LABELS_MOST],
        tail: usize,
        marks: &mut [u8],
        scratch: &mut [u16],
    ) -> usize
        requires { Ready self (record { marks = marks.old; scratch = scratch.old; tail = tail }) × Leading self left.now right.now places.now }
        ensures { StepsTaken self left.now right.now places.now labels_most (record { marks = marks.old; scratch = scratch.old; tail = tail }) (record { marks = marks.new; scratch = scratch.new; tail = result }) }
    {
        let mut end = tail;
        for s in 0..step_limit(left, right) {
            end = self.take_step(left, right, places, s, end, marks, scratch);
        }
        end
    }

    // The queue's new end, with what the steps lead to, or what is wrong with the two nodes.
    fn take_pair(
        self,
        left: Side,
        right: Side,
        tail: usize,
        marks: &mut [u8],
        scratch: &mut [u16],
    ) -> Result<usize, Mismatch>
        requires { Ready self (record { marks = marks.old; scratch = scratch.old; tail = tail }) × Formed self left right }
        ensures { Takes self left.entry right.entry (record { marks = marks.old; scratch = scratch.old; tail = tail }) marks.new scratch.new result }
    {
        let places = compare(left.node, left.names, right.node, right.names)?;
        Ok(self.expand(left.node, right.node, &places, tail, marks, scratch))
    }

    // "in turn 1 the old table's node is the left one"
    pub fn take_nodes(
        self,
        new: Side,
        old: Side,
        tail: usize,
        marks: &mut [u8],
        scratch: &mut [u16],
    ) -> Result<usize, Mismatch>
        requires { Ready self (record { marks = marks.old; scratch = scratch.old; tail = tail }) × Formed self (left_in self.turn new old) (right_in self.turn new old) }
        ensures { Takes self (left_in self.turn new.entry old.entry) (right_in self.turn new.entry old.entry) (record { marks = marks.old; scratch = scratch.old; tail = tail }) marks.new scratch.new result }
    {
        if self.turn == 0 {
            self.take_pair(new, old, tail, marks, scratch)
        } else {
            self.take_pair(old, new, tail, marks, scratch)
        }
    }
}
