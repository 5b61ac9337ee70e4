// The search's part that knows nothing of tables: what it keeps in the lent areas while it goes on, and what it leaves there. A place is
// the number of what is searched, and its mark stands there. While the search goes on a mark is 0, or one more than the number of the step
// that first led to the place; scratch holds the queue of places in its first half and each entry's parent in its second.
// It calls no other crate.
#![tactic(auto)]

ghost use Rattle.std.specs.Prelude.{◌≡◌, ◌++◌, map, ◌+◌, ◌-◌, ◌≤◌, ◌<◌, length, get_or, set, drop, replicate};
ghost use Rattle.search.specs.Queue.{Queue, Entry, begun, visited, run_at, settled, RunLeft};

fn clear(marks: &mut [u8], scratch: &mut [u16])
    ensures { (marks.new ≡ replicate (length marks.old) 0) × (scratch.new ≡ replicate (length scratch.old) 0) }
{
    marks.fill(0);
    scratch.fill(0);
}

// The marks as they are left behind: 1 where the place was reached.
fn settle(marks: &mut [u8])
    ensures { marks.new ≡ map settled marks.old }
{
    for mark in marks.iter_mut() {
        *mark = u8::from(*mark != 0);
    }
}

// Whatever stood in the areas, the queue then holds the one place `start`, and nothing else is marked.
pub fn begin(size: usize, start: usize, marks: &mut [u8], scratch: &mut [u16])
    requires { (start < size) × (size ≤ 32768) × (length marks.old ≡ size) × (length scratch.old ≡ size + size) }
    ensures { record { marks = marks.new; scratch = scratch.new; tail = 1 } ≡ begun size start }
{
    clear(marks, scratch);
    marks[start] = 1;
    scratch[0] = start as u16;
}

// The place `to`, where step `step` of entry `at` leads, is put at the queue's end, unless it is marked. Answers the queue's new end.
// Not a struct of the queue: the areas are lent, and with them in a struct each contract would have to say that they are the same ones afterwards.
pub fn visit(
    size: usize,
    at: usize,
    step: usize,
    to: usize,
    tail: usize,
    marks: &mut [u8],
    scratch: &mut [u16],
) -> usize
    requires { Queue size (record { marks = marks.old; scratch = scratch.old; tail = tail }) × (at < tail) × (step < 255) × (to < size) }
    ensures { record { marks = marks.new; scratch = scratch.new; tail = result } ≡ visited size at step to (record { marks = marks.old; scratch = scratch.old; tail = tail }) }
{
    if marks[to] != 0 {
        return tail;
    }
    // While a place is unmarked there is room for one entry more.
    prove!(tail < size);
    marks[to] = (step + 1) as u8;
    scratch[tail] = to as u16;
    scratch[size + tail] = at as u16;
    tail + 1
}

// How many steps lead to entry `at`.
fn depth(size: usize, at: usize, marks: &[u8], scratch: &[u16]) -> usize
    requires { Entry size marks.now scratch.now at }
    ensures { result ≡ length (run_at size marks.now scratch.now at) }
{
    let mut i = at;
    let mut k = 0;
    // Not a `for`: the next entry is the number that scratch holds.
    while 0 < i {
        i = usize::from(scratch[size + i]);
        k += 1;
    }
    k
}

// The number of the step that led to the place `at`.
fn step_into(marks: &[u8], at: usize) -> u16
    requires { (at < length marks.now) × (0 < get_or marks.now at 0) }
    ensures { result ≡ get_or marks.now at 0 - 1 }
{
    u16::from(marks[at] - 1)
}

// The `steps` steps that lead to entry `at`, in their order; what is beyond them stays.
fn write_path(size: usize, at: usize, steps: usize, marks: &[u8], scratch: &[u16], path: &mut [u16])
    requires { Entry size marks.now scratch.now at × (steps ≡ length (run_at size marks.now scratch.now at)) × (size ≤ length path.old) }
    ensures { path.new ≡ run_at size marks.now scratch.now at ++ drop steps path.old }
{
    let mut i = at;
    for j in (0..steps).rev() {
        path[j] = step_into(marks, usize::from(scratch[i]));
        i = usize::from(scratch[size + i]);
    }
}

// Every entry was looked at, and nothing was wrong: what is marked is left as 1, and scratch as 0.
pub fn leave_marks(marks: &mut [u8], scratch: &mut [u16])
    ensures { (marks.new ≡ map settled marks.old) × (scratch.new ≡ replicate (length scratch.old) 0) }
{
    settle(marks);
    scratch.fill(0);
}

// Something was wrong at entry `at`: the steps that lead there are left in the path, and marks and scratch as 0. Answers how many they are.
pub fn leave_run(
    size: usize,
    at: usize,
    marks: &mut [u8],
    path: &mut [u16],
    scratch: &mut [u16],
) -> usize
    requires { Entry size marks.old scratch.old at × (size ≤ length path.old) }
    ensures { RunLeft size marks.old path.old scratch.old at marks.new path.new scratch.new result }
{
    let steps = depth(size, at, marks, scratch);
    write_path(size, at, steps, marks, scratch, path);
    clear(marks, scratch);
    steps
}
