// Judges the largest table that there is 10,000 times, and prints how often it was well formed: 128 choices of 16 labels,
// each label 16 bytes long and at a place of its own. How long that takes is in docs/CHANGES.md.
#![tactic(auto)]

ghost use Rattle.std.specs.Prelude.{◌<◌};
ghost use Rattle.rules.specs.Numbers.{table_nodes_most};

use formed::well_formed;
use std::{array, io};
use table::{ITEMS_MOST, Item, Kind, LABELS_MOST, Label, NODES_MOST, Node, Slot, Sort, Table};
use words::WORD_MOST;

const ROUNDS: usize = 10000;

// The name bytes of one choice, and of all.
const CHOICE: usize = LABELS_MOST * WORD_MOST;

const NAMES: usize = NODES_MOST * CHOICE;

// Two of a choice's labels differ in their last byte alone, so that to compare them takes longest.
const SPELLED: [u8; CHOICE] =
    *b"command_number_0command_number_1command_number_2command_number_3command_number_4command_number_5command_number_6command_number_7command_number_8command_number_9command_number_acommand_number_bcommand_number_ccommand_number_dcommand_number_ecommand_number_f";

fn choice(node: usize) -> Node
    requires { node < table_nodes_most }
{
    Node {
        kind: Kind::Choose,
        items: [Slot {
            item: Item::OfSort(Sort::String),
        }; ITEMS_MOST],
        item_count: 0,
        labels: array::from_fn(|i| Label {
            at: (node * CHOICE + i * WORD_MOST) as u16,
            len: WORD_MOST as u8,
            to: node as u8,
        }),
        label_count: LABELS_MOST as u8,
        next: 0,
    }
}

fn largest() -> Table {
    Table {
        nodes: array::from_fn(|i| choice(i)),
        count: NODES_MOST as u8,
        start: 0,
    }
}

// The first letter of the names in a round.
fn first_letter(round: usize) -> u8 {
    if round % 2 == 0 { b'c' } else { b'C' }
}

fn main(rt: HostRuntime) -> io::Result<()> {
    let mut t = largest();
    let mut names: [u8; NAMES] = array::from_fn(|i| SPELLED[i % CHOICE]);
    let mut good: u64 = 0;
    for round in 0..ROUNDS {
        // another table and other bytes each time, so that nothing is judged once for all
        t.start = (round % NODES_MOST) as u8;
        names[0] = first_letter(round);
        if well_formed(t, &names) {
            good += 1;
        }
    }
    println!(rt; "{good}")
}
