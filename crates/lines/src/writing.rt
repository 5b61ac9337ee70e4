// The bytes of a line, written one behind the other: each function puts its bytes at a place of the line's area and answers the place
// behind them. They ask for the room; `lib.rt` has looked for it.
ghost use Rattle.std.specs.Prelude.{[], ◌∷◌, suc, ◌+◌, ◌<◌, ◌≤◌, length, take};
ghost use Rattle.rules.specs.Refusals.{number};
ghost use Rattle.rules.specs.Line.{digits, field, fields, line as a_line, refused_line, yes_line, no_line};
ghost use Rattle.rules.specs.computed.Line.{verdict_line};
ghost use Rattle.lines.specs.Adding.{Adds, StepsInPath};

use table::answers::{Found, Refusal, Verdict};

// "a line feed ends the line"
const LINE_FEED: u8 = b'\n';

const SPACE: u8 = b' ';

fn put_byte(b: u8, at: usize, line: &mut [u8]) -> usize
    requires { at < length line.old }
    ensures { Adds line.old at (b ∷ []) line.new result }
{
    line[at] = b;
    at + 1
}

fn put_word(word: &[u8], at: usize, line: &mut [u8]) -> usize
    requires { at + length word.now ≤ length line.old }
    ensures { Adds line.old at word.now line.new result }
{
    let end = at + word.len();
    line[at..end].copy_from_slice(word);
    end
}

// A number in decimal.
fn put_digits(k: usize, at: usize, line: &mut [u8]) -> usize
    requires { at + length (digits (suc k) k) ≤ length line.old }
    ensures { Adds line.old at (digits (suc k) k) line.new result }
{
    if k < 10 {
        return put_byte(b'0' + k as u8, at, line);
    }
    let next = put_digits(k / 10, at, line);
    put_byte(b'0' + (k % 10) as u8, next, line)
}

// "Fields are parted by one space"
fn put_field(k: usize, at: usize, line: &mut [u8]) -> usize
    requires { at + length (field k) ≤ length line.old }
    ensures { Adds line.old at (field k) line.new result }
{
    let next = put_byte(SPACE, at, line);
    put_digits(k, next, line)
}

fn put_fields(all: &[usize], at: usize, line: &mut [u8]) -> usize
    requires { at + length (fields all.now) ≤ length line.old }
    ensures { Adds line.old at (fields all.now) line.new result }
{
    let mut next = at;
    for k in all {
        next = put_field(*k, next, line);
    }
    next
}

// "then the steps"
fn put_steps(steps: &[u16], at: usize, line: &mut [u8]) -> usize
    requires { at + length (fields steps.now) ≤ length line.old }
    ensures { Adds line.old at (fields steps.now) line.new result }
{
    let mut next = at;
    for step in steps {
        next = put_field(usize::from(*step), next, line);
    }
    next
}

// A line without steps: its word, and its fields.
fn put_line(word: &[u8], all: &[usize], line: &mut [u8]) -> usize
    requires { length (a_line word.now all.now) ≤ length line.old }
    ensures { Adds line.old 0 (a_line word.now all.now) line.new result }
{
    let a = put_word(word, 0, line);
    let b = put_fields(all, a, line);
    put_byte(LINE_FEED, b, line)
}

// "`yes` and the mark count"
fn put_yes(count: usize, line: &mut [u8]) -> usize
    requires { length (yes_line count) ≤ length line.old }
    ensures { Adds line.old 0 (yes_line count) line.new result }
{
    put_line(b"yes", &[count], line)
}

// "or `no`, reason, detail, new node, old node, turn, then the steps"
fn put_no(f: Found, path: &[u16], line: &mut [u8]) -> usize
    requires { (f.steps ≤ length path.now) × (length (no_line f (take f.steps path.now)) ≤ length line.old) }
    ensures { Adds line.old 0 (no_line f (take f.steps path.now)) line.new result }
{
    let a = put_word(b"no", 0, line);
    let b = put_fields(&[f.reason, f.detail, f.new, f.old, f.turn], a, line);
    let c = put_steps(&path[..f.steps], b, line);
    put_byte(LINE_FEED, c, line)
}

// "or `refused`, number, text (1 or 2), place"
pub fn put_refused(refusal: Refusal, which: usize, line: &mut [u8]) -> usize
    requires { length (refused_line (number refusal.kind) which refusal.place) ≤ length line.old }
    ensures { Adds line.old 0 (refused_line (number refusal.kind) which refusal.place) line.new result }
{
    put_line(
        b"refused",
        &[refusal.kind as usize, which, refusal.place],
        line,
    )
}

// The line of a verdict.
pub fn put_verdict(v: Verdict, path: &[u16], line: &mut [u8]) -> usize
    requires { StepsInPath v path.now × (length (verdict_line v path.now) ≤ length line.old) }
    ensures { Adds line.old 0 (verdict_line v path.now) line.new result }
{
    match v {
        Verdict::Yes(count) => put_yes(count, line),
        Verdict::No(f) => put_no(f, path, line),
    }
}
