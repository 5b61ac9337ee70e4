// The node counts of the two tables, and what follows from them alone: how many pairs there are, the place of each, and the pair that a step
// leads to.

ghost use Rattle.std.specs.Prelude.{◌≡◌, ◌<◌, ◌≤◌, ◌*◌};
ghost use Rattle.std.proofs.Math.Option.{some};
ghost use Rattle.rules.specs.Numbers.{table_nodes_most};
ghost use Rattle.rules.specs.Pairs.{turns_most, turn_after, landed, onto};
ghost use Rattle.rules.proofs.Places.{place, pair_in};
ghost use Rattle.rules.proofs.Steps.{Inside};

use pairs::{Onward, TURNS};

// "A pair has a left and a right node", one of the new table and one of the old, and its turn.
#[derive(Clone, Copy)]
pub struct Pair {
    pub turn: usize,
    pub new: usize,
    pub old: usize,
}

// The node counts of the two tables.
#[derive(Clone, Copy)]
pub struct Sizes {
    pub new: usize,
    pub old: usize,
    ghost some: { (0 < new) × (0 < old) },
    ghost few: { (new ≤ table_nodes_most) × (old ≤ table_nodes_most) },
}

impl Sizes {
    pub fn new(new: u8, old: u8) -> Sizes
        requires { (0 < new) × (0 < old) × (new ≤ table_nodes_most) × (old ≤ table_nodes_most) }
        ensures { (result.new ≡ new) × (result.old ≡ old) }
    {
        Sizes {
            new: usize::from(new),
            old: usize::from(old),
        }
    }

    // "marks, 2 × n × m bytes; path, 2 × n × m numbers"
    pub fn pair_count(self) -> usize
        ensures { result ≡ turns_most * self.new * self.old }
    {
        TURNS * self.new * self.old
    }

    // "A pair's mark stands at turn × n × m + new × m + old"
    pub fn mark_place(self, pair: Pair) -> usize
        requires { Inside self.new self.old (record { turn = pair.turn; new = pair.new; old = pair.old }) }
        ensures { result ≡ place self.new self.old (record { turn = pair.turn; new = pair.new; old = pair.old }) }
    {
        pair.turn * self.new * self.old + pair.new * self.old + pair.old
    }

    // The pair whose mark stands at `place`.
    pub fn pair_at(self, place: usize) -> Pair
        ensures { record { turn = result.turn; new = result.new; old = result.old } ≡ pair_in self.new self.old place }
    {
        Pair {
            turn: place / self.old / self.new,
            new: place / self.old % self.new,
            old: place % self.old,
        }
    }
}

fn turn_after(turns: bool, turn: usize) -> usize
    requires { turn < turns_most }
    ensures { result ≡ turn_after turns turn }
{
    if turns { 1 - turn } else { turn }
}

// The pair that a step leads to from turn `turn`: the left node is the new table's in turn 0, and the right one in turn 1.
pub fn pair_after(turn: usize, onward: Onward) -> Pair
    requires { turn < turns_most }
    ensures { landed turn (onto onward.left onward.right onward.turns) ≡ some (record { turn = result.turn; new = result.new; old = result.old }) }
{
    let left = usize::from(onward.left);
    let right = usize::from(onward.right);
    let turn_there = turn_after(onward.turns, turn);
    if turn == 0 {
        Pair {
            turn: turn_there,
            new: left,
            old: right,
        }
    } else {
        Pair {
            turn: turn_there,
            new: right,
            old: left,
        }
    }
}
