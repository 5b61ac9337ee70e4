// The label that is missing after a mismatch of reason 23. `missing_label` is the definition of its name in `rules`, for any tables, name
// bytes and answer, and asks nothing of its caller: what it hands back is a part of one of the two lent texts, and nothing is copied.
#![tactic(auto)]

ghost use Rattle.std.specs.Prelude.{◌&&◌, ◌≡◌, eqb, ltb};
ghost use Rattle.rules.specs.Tables.{is_choice, label_count, spelling_at};
ghost use Rattle.rules.specs.Pairs.{kind_number};
ghost use Rattle.rules.specs.Replies.{of_chooser, found_fits, missing_label};

use formed::well_formed;
use nodes::{is_choice, label_count, spelling_at};
use pairs::{LABEL_MISSING, TURNS, left_chooses};
use table::answers::{Found, Verdict};
use table::{Kind, Node, Table};

// Of what is the new table's and what is the old one's, what is the chooser's: "by kind and turn".
fn of_chooser<T: Copy>(k: Kind, turn: usize, new: T, old: T) -> T
    ensures { result ≡ of_chooser k turn new old }
{
    let new_chooses = if left_chooses(k) {
        turn == 0
    } else {
        turn != 0
    };
    if new_chooses { new } else { old }
}

// "both nodes are choices of one kind and the detail is a position in the chooser's list"
fn nodes_fit(new: &Node, old: &Node, turn: usize, detail: usize) -> bool
    ensures { result ≡ (is_choice new.now.kind && eqb (kind_number new.now.kind) (kind_number old.now.kind) && ltb detail (label_count (of_chooser new.now.kind turn new.now old.now))) }
{
    is_choice(new.kind)
        && new.kind == old.kind
        && detail < label_count(of_chooser(new.kind, turn, new, old))
}

// "its reason is 23, both tables are well formed, nodes and turn exist", and the rest.
#[tactic(auto, using(crate::proofs::Fits::few_nodes), unfolding(rules::specs::Replies::found_fits, rules::specs::Replies::chooser))]
fn found_fits(new: Table, new_names: &[u8], old: Table, old_names: &[u8], found: Found) -> bool
    ensures { result ≡ found_fits new new_names.now old old_names.now found }
{
    found.reason == LABEL_MISSING
        && well_formed(new, new_names)
        && well_formed(old, old_names)
        && found.new < usize::from(new.count)
        && found.old < usize::from(old.count)
        && found.turn < TURNS
        && nodes_fit(
            &new.nodes[found.new],
            &old.nodes[found.old],
            found.turn,
            found.detail,
        )
}

// The label at a position of the chooser's list.
fn label_of<'a>(
    new: &Node,
    new_names: &'a [u8],
    old: &Node,
    old_names: &'a [u8],
    turn: usize,
    detail: usize,
) -> &'a [u8]
    ensures { result.now ≡ spelling_at (of_chooser new.now.kind turn new.now old.now) (of_chooser new.now.kind turn new_names.now old_names.now) detail }
{
    let names = of_chooser(new.kind, turn, new_names, old_names);
    spelling_at(names, of_chooser(new.kind, turn, new, old), detail)
}

// The missing label of an answer; empty for any that does not fit.
#[tactic(auto, using(crate::proofs::Fits::nodes_there), unfolding(rules::specs::Replies::missing_label, rules::specs::Replies::chooser, rules::specs::Replies::chooser_names))]
pub fn missing_label<'a, E: Drop>(
    new: Table,
    new_names: &'a [u8],
    old: Table,
    old_names: &'a [u8],
    answer: Result<Verdict, E>,
) -> &'a [u8]
    ensures { result.now ≡ missing_label new new_names.now old old_names.now answer }
{
    match answer {
        Ok(Verdict::No(found)) if found_fits(new, new_names, old, old_names, found) => {
            let x = &new.nodes[found.new];
            let y = &old.nodes[found.old];
            label_of(x, new_names, y, old_names, found.turn, found.detail)
        }
        // "If it does not fit, the part is empty": a part of a lent text also then, and so no `&[]`.
        _ => &new_names[..0],
    }
}
