// How a text's tree is kept as plain numbers in areas that the readers write and the table is made from: where each number stands, and how
// a word is found among rows of words. The definitions are in specs/Flat.antt.
#![tactic(auto)]

ghost use Rattle.std.specs.Prelude.{◌≡◌, ◌*◌, ◌≤◌, length};
ghost use Rattle.rules.specs.Basics.{part};
ghost use Rattle.flat.specs.Flat.{row, word_found};
ghost use Rattle.words.specs.Found.{found};

use words::same_bytes;

// "Text at most 4,096 bytes". The area of the nodes and the area of the uses have as many numbers.
pub const TEXT_MOST: usize = 4096;

// Room for a node: its kind's number, its count of items or labels, its continuation, then its items (one number each) or its labels (a row each).
pub const NODE_ROOM: usize = 64;

pub const COUNT: usize = 1;

pub const GOES_ON: usize = 2;

pub const LIST: usize = 3;

// A row, for a label or a definition: its word's place, its word's length, its link.
pub const ROW: usize = 3;

// "96 definitions", a row each.
pub const DEFINITIONS_MOST: usize = 96;

pub const DEFINITIONS_ROOM: usize = DEFINITIONS_MOST * ROW;

// A link is a node's number, or this and the number of a use of a name. Not an enum, and neither is an item: the area holds plain numbers, as
// `Stored` in specs/Flat.antt says of it.
pub const A_USE: usize = 64;

// An item is a sort's number, or this and a link.
pub const A_SESSION: u16 = 4;

// The part of s from `at` on that is `len` bytes long, cut where s ends.
pub fn word_at(s: &[u8], at: usize, len: usize) -> &[u8]
    ensures { result.now ≡ part s.now at len }
{
    let rest = &s[at.min(s.len())..];
    &rest[..len.min(rest.len())]
}

// Of n words in rows, the first that is w; `None` where none is.
pub fn find_word(s: &[u8], rows: &[u16], n: usize, w: &[u8]) -> Option<usize>
    requires { n * row ≤ length rows.now }
    ensures { result ≡ found n (word_found s.now rows.now n w.now) }
{
    (0..n).find(|i| {
        let at = rows[*i * ROW].into();
        let len = rows[*i * ROW + 1].into();
        same_bytes(word_at(s, at, len), w)
    })
}
