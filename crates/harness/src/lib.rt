// The C interface: the line for two texts, for either question, over byte slices and numbers. include/dzaghvori.h has a declaration and a
// comment for each function, and says what C itself must keep. Nothing is asked here.
#![tactic(auto)]

ghost use Rattle.std.specs.Prelude.{◌*◌, ◌≤◌};
ghost use Rattle.rules.specs.Numbers.{text_nodes_most};
ghost use Rattle.rules.specs.Pairs.{turns_most};
ghost use Rattle.rules.proofs.OwnAreas.{against_most};
ghost use Rattle.table.specs.declared.answers.Question.TheVariants.{MayReplace, IsCompatible};
ghost use Rattle.harness.specs.Told.{Told, Tells, TellsOwn};

use lines::line_of_texts;
use table::answers::{Question, Refusal};

// The areas for the largest texts, 64 nodes each: 2 × n × m, 2 × n × m, 4 × n × m.
const MARKS: usize = 8192;

const PATH: usize = 8192;

const SCRATCH: usize = 16384;

// And for 64 nodes and a dual of 128.
const DUAL_MARKS: usize = 16384;

const DUAL_PATH: usize = 16384;

const DUAL_SCRATCH: usize = 32768;

// What C is told: the line's length, 0 where there is none; and through `short` the position of the area that is too short, 0 where none is.
fn tell(written: Result<usize, Refusal>, short: &mut usize) -> usize
    ensures { Told written result short.new }
{
    match written {
        Ok(n) => {
            *short = 0;
            n
        }
        Err(refusal) => {
            *short = refusal.place;
            0
        }
    }
}

// The line for two texts, in marks, path and scratch of M, P and S elements.
fn line_in_own<const M: usize, const P: usize, const S: usize>(
    question: Question,
    new: &[u8],
    other: &[u8],
    line: &mut [u8],
    short: &mut usize,
) -> usize
    requires marks_long { turns_most * text_nodes_most * against_most question ≤ M }
    requires path_long { turns_most * text_nodes_most * against_most question ≤ P }
    requires scratch_long { 4 * text_nodes_most * against_most question ≤ S }
    requires on_stack { (M ≤ 65536) × (P ≤ 65536) × (S ≤ 65536) }
    ensures { TellsOwn question new.now other.now line.old line.new result short.new }
{
    let mut marks = [0u8; M];
    let mut path = [0u16; P];
    let mut scratch = [0u16; S];
    let written = line_of_texts(
        question,
        new,
        other,
        &mut marks,
        &mut path,
        &mut scratch,
        line,
    );
    tell(written, short)
}

// Whether the new text may replace the old one.
#[unsafe(no_mangle)]
pub extern "C" fn dzaghvori_verdict(
    new: &[u8],
    old: &[u8],
    marks: &mut [u8],
    path: &mut [u16],
    scratch: &mut [u16],
    line: &mut [u8],
    short: &mut usize,
) -> usize
    ensures { Tells MayReplace new.now old.now (record { lent = record { marks = marks.old; path = path.old; scratch = scratch.old }; line = line.old }) (record { lent = record { marks = marks.new; path = path.new; scratch = scratch.new }; line = line.new }) result short.new }
{
    let question = Question::MayReplace;
    let written = line_of_texts(question, new, old, marks, path, scratch, line);
    tell(written, short)
}

// Whether the new text is compatible with the other one.
#[unsafe(no_mangle)]
pub extern "C" fn dzaghvori_compatible(
    new: &[u8],
    other: &[u8],
    marks: &mut [u8],
    path: &mut [u16],
    scratch: &mut [u16],
    line: &mut [u8],
    short: &mut usize,
) -> usize
    ensures { Tells IsCompatible new.now other.now (record { lent = record { marks = marks.old; path = path.old; scratch = scratch.old }; line = line.old }) (record { lent = record { marks = marks.new; path = path.new; scratch = scratch.new }; line = line.new }) result short.new }
{
    let question = Question::IsCompatible;
    let written = line_of_texts(question, new, other, marks, path, scratch, line);
    tell(written, short)
}

// The same as the first, in marks, path and scratch of its own.
#[unsafe(no_mangle)]
pub extern "C" fn dzaghvori_verdict_own(
    new: &[u8],
    old: &[u8],
    line: &mut [u8],
    short: &mut usize,
) -> usize
    ensures { TellsOwn MayReplace new.now old.now line.old line.new result short.new }
{
    line_in_own::<MARKS, PATH, SCRATCH>(Question::MayReplace, new, old, line, short)
}

// The same as the second, in marks, path and scratch of its own.
#[unsafe(no_mangle)]
pub extern "C" fn dzaghvori_compatible_own(
    new: &[u8],
    other: &[u8],
    line: &mut [u8],
    short: &mut usize,
) -> usize
    ensures { TellsOwn IsCompatible new.now other.now line.old line.new result short.new }
{
    line_in_own::<DUAL_MARKS, DUAL_PATH, DUAL_SCRATCH>(
        Question::IsCompatible,
        new,
        other,
        line,
        short,
    )
}
