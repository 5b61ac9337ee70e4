// From two texts to the printed line. The functions give every two texts, and any lent areas, the reply that `WritesLine` of `rules` allows,
// and ask nothing of their caller. The line stands at the front of its area.
#![tactic(auto)]

mod writing;

ghost use Rattle.std.specs.Prelude.{◌==◌, position, ◌≡◌, ◌<◌, ◌≤◌, length};
ghost use Rattle.rules.specs.Numbers.{table_nodes_most, text_most};
ghost use Rattle.rules.specs.Refusals.{number};
ghost use Rattle.rules.specs.Line.{against, first_text, second_text};
ghost use Rattle.rules.specs.Replies.{Reads, made, refusal};
ghost use Rattle.table.specs.declared.answers.RefusalKind.TheVariants.{AreaTooShort};
ghost use Rattle.rules.specs.Writing.{WritesLine};
ghost use Rattle.lines.specs.Asking.{Checked, WritesRefusal};

use crate::writing::{put_refused, put_verdict};
use dual::dual;
use reader::read;
use replace::decide;
use table::Table;
use table::answers::{Made, Question, Refusal, RefusalKind};

// The line's area, in bytes: 6 × n × m + 18.
const LINE_LEAST: usize = 18;

// The table that the new one is held against: that of the second text, or its dual where compatible is asked.
fn second_table(question: Question, t: Table, text: &[u8]) -> Table
    requires { Reads text.now (made t) }
    ensures { result ≡ against question t }
{
    match question {
        Question::MayReplace => t,
        Question::IsCompatible => {
            let turned = dual(t, text);
            turned.table
        }
    }
}

// A lent area, by its position from 1, that is too short.
fn too_short(place: usize) -> Refusal
    ensures { result ≡ refusal AreaTooShort place }
{
    Refusal {
        kind: RefusalKind::AreaTooShort,
        place,
    }
}

// Whether the areas are long enough for n and m nodes; else the least that is not.
fn check_areas(
    n: usize,
    m: usize,
    marks: usize,
    path: usize,
    scratch: usize,
    line: usize,
) -> Result<(), Refusal>
    requires { (n ≤ table_nodes_most) × (m ≤ table_nodes_most) }
    ensures { Checked n m (record { marks = marks; path = path; scratch = scratch; line = line }) result }
{
    let pairs = n * m;
    if marks < 2 * pairs {
        return Err(too_short(1));
    }
    if path < 2 * pairs {
        return Err(too_short(2));
    }
    if scratch < 4 * pairs {
        return Err(too_short(3));
    }
    if line < 6 * pairs + LINE_LEAST {
        return Err(too_short(4));
    }
    Ok(())
}

// The line for a refused text, which has no nodes: the other areas are not needed.
fn refused_text(refusal: Refusal, which: usize, line: &mut [u8]) -> Result<usize, Refusal>
    requires { (number refusal.kind < 10) × (which < 10) × (refusal.place ≤ text_most) }
    ensures { WritesRefusal refusal which line.old line.new result }
{
    if line.len() < LINE_LEAST {
        return Err(too_short(4));
    }
    Ok(put_refused(refusal, which, line))
}

// The line for a question about two texts that have been read. It reads none itself, and has a frame of its own: what reading and what a
// verdict need of the stack is then not needed at once. The areas are not a struct: they are lent, and with them in a struct each contract would
// have to say that they are the same ones afterwards.
#[inline(never)]
fn write_line(
    question: Question,
    first: Made,
    new: &[u8],
    second: Made,
    old: &[u8],
    marks: &mut [u8],
    path: &mut [u16],
    scratch: &mut [u16],
    line: &mut [u8],
) -> Result<usize, Refusal>
    requires { Reads new.now first × Reads old.now second }
    ensures { WritesLine question new.now old.now (record { lent = record { marks = marks.old; path = path.old; scratch = scratch.old }; line = line.old }) (record { lent = record { marks = marks.new; path = path.new; scratch = scratch.new }; line = line.new }) result }
{
    if let Err(refusal) = first.answer {
        return refused_text(refusal, 1, line);
    }
    if let Err(refusal) = second.answer {
        return refused_text(refusal, 2, line);
    }
    let other = second_table(question, second.table, old);
    let n = usize::from(first.table.count);
    let m = usize::from(other.count);
    check_areas(n, m, marks.len(), path.len(), scratch.len(), line.len())?;
    let verdict = decide(first.table, new, other, old, marks, path, scratch);
    Ok(put_verdict(verdict, path, line))
}

// The line for two texts: whether the new one may replace the other, or is compatible with it.
pub fn line_of_texts(
    question: Question,
    new: &[u8],
    other: &[u8],
    marks: &mut [u8],
    path: &mut [u16],
    scratch: &mut [u16],
    line: &mut [u8],
) -> Result<usize, Refusal>
    ensures { WritesLine question new.now other.now (record { lent = record { marks = marks.old; path = path.old; scratch = scratch.old }; line = line.old }) (record { lent = record { marks = marks.new; path = path.new; scratch = scratch.new }; line = line.new }) result }
{
    let first = read(new);
    let second = read(other);
    write_line(
        question, first, new, second, other, marks, path, scratch, line,
    )
}

// Where the first byte 0 stands.
fn first_zero(input: &[u8]) -> Option<usize>
    ensures { result ≡ position (λ b. b == 0) input.now }
{
    input.iter().position(|b| *b == 0)
}

// "the new text, one byte 0, the old text": the two texts of an input.
fn texts_of(input: &[u8]) -> (&[u8], &[u8])
    ensures first { result.0.now ≡ first_text input.now }
    ensures second { result.1.now ≡ second_text input.now }
{
    match first_zero(input) {
        Some(k) => (&input[..k], &input[k + 1..]),
        None => (input, &input[input.len()..]),
    }
}

// The line for the two texts of an input.
pub fn line_of_input(
    question: Question,
    input: &[u8],
    marks: &mut [u8],
    path: &mut [u16],
    scratch: &mut [u16],
    line: &mut [u8],
) -> Result<usize, Refusal>
    ensures { WritesLine question (first_text input.now) (second_text input.now) (record { lent = record { marks = marks.old; path = path.old; scratch = scratch.old }; line = line.old }) (record { lent = record { marks = marks.new; path = path.new; scratch = scratch.new }; line = line.new }) result }
{
    let (new, other) = texts_of(input);
    line_of_texts(question, new, other, marks, path, scratch, line)
}
