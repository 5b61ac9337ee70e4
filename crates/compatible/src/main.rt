// Prints the line for what stands on standard input: is the first of its two texts compatible with the second?
#![tactic(auto)]

use table::answers::Question;

fn main(rt: HostRuntime) {
    printer::answer_input(&rt, Question::IsCompatible);
}
