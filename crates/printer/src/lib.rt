// What the programs `verdict` and `compatible` share: the line for what stands on standard input. After a failed read no line is printed, and
// standard error says what failed.
#![tactic(auto)]

ghost use Rattle.std.specs.Prelude.{◌≡◌, length};
ghost use Rattle.rules.specs.Writing.{PrintsInto};
ghost use Rattle.printer.specs.Lengths.{LengthOf};

use input::read_input;
use lines::line_of_input;
use table::answers::{Question, Refusal};

// A text of 4,096 bytes, the byte 0, a text of 4,096 bytes, and one byte more that shows it to be too long: the line depends on no byte
// behind these (`first_bytes` in rules/proofs/FirstBytes).
const INPUT_MOST: usize = 8194;

// The areas for 64 nodes and a dual of 128, which are enough for every two texts: 2 × n × m, 2 × n × m, 4 × n × m, and 6 × n × m + 18.
const MARKS: usize = 16384;

const PATH: usize = 16384;

const SCRATCH: usize = 32768;

const LINE: usize = 49170;

// How many bytes a line has. In areas that are long enough there always is one.
fn length_of(written: Result<usize, Refusal>) -> usize
    ensures { LengthOf written result }
{
    written.unwrap_or(0)
}

// The line for an input, at the front of the area; how many bytes it has.
fn line_for(question: Question, input: &[u8], line: &mut [u8]) -> usize
    requires { length line.old ≡ 49170 }
    ensures { PrintsInto question input.now line.old line.new result }
{
    let mut marks = [0u8; MARKS];
    let mut path = [0u16; PATH];
    let mut scratch = [0u16; SCRATCH];
    let written = line_of_input(question, input, &mut marks, &mut path, &mut scratch, line);
    length_of(written)
}

// Where the line cannot be written, standard error says so; where that cannot be written either, there is nobody left to tell.
fn print_line(rt: &(impl Print + Eprint), question: Question, input: &[u8]) {
    let mut line = [0u8; LINE];
    let n = line_for(question, input, &mut line);
    if let Err(error) = rt.write_all(&line[..n]) {
        let _ = eprintln!(rt; "writing the line: {error}");
    }
}

// Reads standard input and prints the line for the question about its two texts.
pub fn answer_input(rt: &(impl Input + Print + Eprint), question: Question) {
    let mut buf = [0u8; INPUT_MOST];
    let mut source = rt.reader();
    match read_input(&mut source, &mut buf) {
        Ok(n) => print_line(rt, question, &buf[..n]),
        // Where that cannot be written either, there is nobody left to tell.
        Err(error) => {
            let _ = eprintln!(rt; "reading standard input: {error}");
        }
    }
}
