// The definitions of a text: their names, and the links of their types.
ghost use Rattle.std.specs.Prelude.{◌≡◌, ◌<◌, ◌≤◌, length};
ghost use Rattle.rules.specs.Numbers.{text_most, definitions_most};
ghost use Rattle.type_reader.specs.Answers.{TokenReady};
ghost use Rattle.reader.specs.Defining.{rows_room, Named, stored_definition, Sound, DefinitionRead, TextGot};

use cursor::{Cursor, Symbol, Taken};
use flat::{DEFINITIONS_MOST, DEFINITIONS_ROOM, ROW, find_word, word_at};
use table::answers::{Refusal, RefusalKind};
use type_reader::{Areas, Past, read_type, refusal, sign, too_long};

// The name t of a definition, behind n others.
fn name(
    s: &[u8],
    definitions: &[u16; DEFINITIONS_ROOM],
    t: Taken,
    n: usize,
) -> Result<Cursor, Refusal>
    requires { length definitions.now ≡ rows_room }
    ensures { Named s.now definitions.now t n result }
{
    if !t.is(Symbol::Word) {
        return Err(refusal(RefusalKind::Unexpected, t));
    }
    if too_long(t.len) {
        return Err(refusal(RefusalKind::WordTooLong, t));
    }
    if DEFINITIONS_MOST <= n {
        return Err(refusal(RefusalKind::OneTooMany, t));
    }
    if find_word(s, definitions, n, word_at(s, t.at, t.len)).is_some() {
        return Err(refusal(RefusalKind::NameTwice, t));
    }
    Ok(t.next)
}

fn store_definition(definitions: &mut [u16; DEFINITIONS_ROOM], n: usize, t: Taken, link: u16)
    requires { (n < definitions_most) × (t.at ≤ text_most) × (t.len ≤ text_most) }
    ensures { definitions.new ≡ stored_definition definitions.old n t link }
{
    definitions[n * ROW] = t.at as u16;
    definitions[n * ROW + 1] = t.len as u16;
    definitions[n * ROW + 2] = link;
}

// The definition whose name is t, behind n others.
fn read_definition(
    s: &[u8],
    areas: &mut Areas,
    definitions: &mut [u16; DEFINITIONS_ROOM],
    t: Taken,
    n: usize,
) -> Result<Cursor, Refusal>
    requires { TokenReady s.now areas.old.nodes areas.old.uses t × (length definitions.old ≡ rows_room) }
    ensures sound { Sound s.now areas.new.nodes areas.new.uses definitions.new t.at result }
    ensures definition_read { DefinitionRead s.now areas.old.nodes areas.old.uses definitions.old areas.new.nodes areas.new.uses definitions.new t n result }
{
    let c1 = name(s, definitions, t, n)?;
    let c2 = sign(s, c1, Symbol::Byte(b'='))?;
    let session = read_type(s, areas, c2.take(s), 0)?;
    store_definition(definitions, n, t, session.value);
    sign(s, session.next, Symbol::Byte(b'.'))
}

// All definitions of a text; the value is their count.
pub fn read_definitions(
    s: &[u8],
    areas: &mut Areas,
    definitions: &mut [u16; DEFINITIONS_ROOM],
) -> Result<Past, Refusal>
    requires { (length s.now ≤ text_most) × (length areas.old.nodes ≡ text_most) × (length areas.old.uses ≡ text_most) × (length definitions.old ≡ rows_room) }
    ensures { TextGot s.now areas.new.nodes areas.new.uses definitions.new result }
{
    let start = Cursor {
        at: 0,
        nodes: 0,
        uses: 0,
    };
    let mut c = read_definition(s, areas, definitions, start.take(s), 0)?;
    let mut n = 1;
    let mut t = c.take(s);
    // Not a `for`: each definition begins at the token that the one before it ends at.
    while !t.is(Symbol::Nothing) {
        c = read_definition(s, areas, definitions, t, n)?;
        n += 1;
        t = c.take(s);
    }
    Ok(Past {
        value: n as u16,
        next: c,
    })
}
