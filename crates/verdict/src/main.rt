// Prints the line for what stands on standard input: may the first of its two texts replace the second?
#![tactic(auto)]

use table::answers::Question;

fn main(rt: HostRuntime) {
    printer::answer_input(&rt, Question::MayReplace);
}
