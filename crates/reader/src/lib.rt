// Reading a text: from its bytes to its table, or to the refusal that goes first.
#![tactic(auto)]

mod definitions;

ghost use Rattle.rules.specs.Notation.{Text};
ghost use Rattle.rules.specs.Replies.{Reads};
ghost use Rattle.flat.specs.Flat.{Parsed};

use crate::definitions::read_definitions;
use blanks::refused;
use flat::{DEFINITIONS_MOST, DEFINITIONS_ROOM, ROW, TEXT_MOST};
use names::{find_ends, find_owners};
use table::answers::{Made, Refusal, RefusalKind};
use table_maker::table_from;
use type_reader::{Areas, Past};

// 8, then 9, then the table. In a frame of its own, so that its areas are not there while the calls that read types run.
#[inline(never)]
fn resolve(
    text: &[u8],
    areas: &Areas,
    node_count: usize,
    use_count: usize,
    definitions: &[u16; DEFINITIONS_ROOM],
    n: usize,
) -> Made
    requires { (x : Text) × Parsed text.now areas.now.nodes areas.now.uses definitions.now n node_count use_count x }
    ensures { Reads text.now result }
{
    let mut owners = [0u8; TEXT_MOST];
    if let Some(u) = find_owners(text, &areas.uses, use_count, definitions, n, &mut owners) {
        return refused(RefusalKind::NeverDefined, usize::from(areas.uses[u]));
    }
    let mut ends = [0u8; DEFINITIONS_MOST];
    if let Some(d) = find_ends(definitions, &owners, n, &mut ends) {
        return refused(RefusalKind::LeadsRound, usize::from(definitions[d * ROW]));
    }
    Made {
        table: table_from(&areas.nodes, node_count, &owners, &ends),
        answer: Ok(()),
    }
}

// The table of a text, or the refusal that goes first.
pub fn read(text: &[u8]) -> Made
    ensures { Reads text.now result }
{
    if TEXT_MOST < text.len() {
        return refused(RefusalKind::TextTooLong, 0);
    }
    let mut areas = Areas {
        nodes: [0; TEXT_MOST],
        uses: [0; TEXT_MOST],
    };
    let mut definitions = [0u16; DEFINITIONS_ROOM];
    match read_definitions(text, &mut areas, &mut definitions) {
        Ok(Past { value, next }) => resolve(
            text,
            &areas,
            next.nodes,
            next.uses,
            &definitions,
            value as usize,
        ),
        Err(Refusal { kind, place }) => refused(kind, place),
    }
}
