// What is blank: "whatever makes a table fills it with 0 (`end`, `string`)"; an array that is blank past its first places; and the answer beside
// which a table is blank.
#![tactic(auto)]

ghost use Rattle.std.specs.Prelude.{◌≡◌, ℕ, ◌≤◌};
ghost use Rattle.rules.specs.Basics.{listed, fill};
ghost use Rattle.rules.specs.Tables.{blank_node};
ghost use Rattle.rules.specs.Replies.{refused};
ghost use Rattle.blanks.specs.Calls.{TakesBelow, AnswersBelow};

use table::answers::{Made, Refusal, RefusalKind};
use table::{NODES_MOST, Node, Table};

pub fn blank_node() -> Node
    ensures { result ≡ blank_node }
{
    Node::BLANK
}

// An array that holds what `at` answers in its first `n` places, and `blank` behind them.
// Not `array::from_fn`, which is no plainer here: at a type parameter it would ask of every caller that the array fits in memory.
pub fn filled<T: Copy, const N: usize, F: Fn(usize) -> T>(blank: T, n: usize, at: F) -> [T; N]
    requires few { n ≤ N }
    requires callable { TakesBelow (F.pre at) n }
    ensures { (f : ℕ → T) → AnswersBelow (F.post at) n f → result ≡ fill N blank (listed n f) }
{
    let mut all = [blank; N];
    for i in 0..n {
        all[i] = at(i);
    }
    all
}

// "Beside a refusal the table has no nodes and start 0."
pub fn refused(kind: RefusalKind, place: usize) -> Made
    ensures { result ≡ refused kind place }
{
    Made {
        table: Table {
            nodes: [blank_node(); NODES_MOST],
            count: 0,
            start: 0,
        },
        answer: Err(Refusal { kind, place }),
    }
}
