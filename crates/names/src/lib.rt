// Where the names of a text lead: each use to the definition that it names, each definition to its node, "through other names if need be".
// The definitions are in specs/Following.antt.
#![tactic(auto)]

ghost use Rattle.std.specs.Prelude.{◌≡◌, ◌<◌, ◌≤◌, length};
ghost use Rattle.rules.specs.Numbers.{text_most, definitions_most};
ghost use Rattle.words.specs.Found.{found};
ghost use Rattle.flat.specs.Flat.{a_use};
ghost use Rattle.names.specs.Following.{OwnersFound, Followable, EndsFound, leads};

use cursor::word_end;
use flat::{A_USE, DEFINITIONS_MOST, DEFINITIONS_ROOM, ROW, TEXT_MOST, find_word, word_at};

// For each use of a name, which of the n definitions it names; answers the first use that names none, if there is one.
#[tactic(auto, using(rules::proofs::TokensBehind::past_from))]
pub fn find_owners(
    s: &[u8],
    uses: &[u16; TEXT_MOST],
    use_count: usize,
    definitions: &[u16; DEFINITIONS_ROOM],
    n: usize,
    owners: &mut [u8; TEXT_MOST],
) -> Option<usize>
    requires use_count_le_text_most { use_count ≤ text_most }
    requires n_le_definitions_most { n ≤ definitions_most }
    requires owners_len { length owners.old ≡ text_most }
    ensures { OwnersFound s.now uses.now use_count definitions.now n owners.old owners.new result }
{
    for u in 0..use_count {
        let at = usize::from(uses[u]);
        let word = word_at(s, at, word_end(s, at) - at);
        let Some(d) = find_word(s, definitions, n, word) else {
            return Some(u);
        };
        owners[u] = d as u8;
    }
    None
}

// The node that definition d leads to, through at most n names; `None` where that is not enough.
fn end_of(
    definitions: &[u16; DEFINITIONS_ROOM],
    owners: &[u8; TEXT_MOST],
    d: usize,
    n: usize,
) -> Option<u8>
    requires followable { Followable definitions.now owners.now n }
    requires d_lt_n { d < n }
    ensures { result ≡ found a_use (leads definitions.now owners.now n d) }
{
    let mut at = d;
    for _ in 0..n {
        let link = usize::from(definitions[at * ROW + 2]);
        if link < A_USE {
            return Some(link as u8);
        }
        at = usize::from(owners[link - A_USE]);
    }
    None
}

// For each of the n definitions, the node that it leads to; answers the first that leads to none, if there is one.
pub fn find_ends(
    definitions: &[u16; DEFINITIONS_ROOM],
    owners: &[u8; TEXT_MOST],
    n: usize,
    ends: &mut [u8; DEFINITIONS_MOST],
) -> Option<usize>
    requires followable { Followable definitions.now owners.now n }
    requires ends_len { length ends.old ≡ definitions_most }
    ensures { EndsFound definitions.now owners.now n ends.old ends.new result }
{
    for d in 0..n {
        let Some(end) = end_of(definitions, owners, d, n) else {
            return Some(d);
        };
        ends[d] = end;
    }
    None
}
