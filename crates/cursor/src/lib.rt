// The tokens of a text, taken one by one by a cursor that is handed on by value.
#![tactic(auto)]

ghost use Rattle.std.specs.Prelude.{◌≡◌, ◌≤◌, ℕ, Bool, eqb, length};
ghost use Rattle.rules.specs.Words.{blank, word_byte};
ghost use Rattle.rules.proofs.TokensBehind.{past};
ghost use Rattle.cursor.specs.Takes.{Takes, Tells, kind_of, number, word_number};

use table::Sort;
use words::{is_blank, is_letter, is_word_byte, reserved_position};

// What a token is: a byte of its own, a reserved word (`end`, or that of a sort), any other word, or what stands behind the last token.
#[derive(Clone, Copy, Debug, PartialEq, Eq)]
pub enum Symbol {
    Byte(u8),
    End,
    Sort(Sort),
    Word,
    Nothing,
}

// How far a reader has got in a text: the next byte, and how many nodes and how many uses of names stand before it.
#[derive(Clone, Copy)]
pub struct Cursor {
    pub at: usize,
    pub nodes: usize,
    pub uses: usize,
}

// A token: what it is, where it stands, how long it is, and the cursor behind it.
#[derive(Clone, Copy)]
pub struct Taken {
    pub symbol: Symbol,
    pub at: usize,
    pub len: usize,
    pub next: Cursor,
}

// The first byte from i on that fails the test; the end of s, or i itself behind it, where none does.
fn past<F: Fn(u8) -> bool + Drop>(s: &[u8], i: usize, test: F) -> usize
    requires { F.IsAlwaysCallable test }
    ensures { (p : ℕ → Bool) → Tells (F.post test) p → result ≡ past p s.now i }
{
    for at in i..s.len() {
        if !test(s[at]) {
            return at;
        }
    }
    i.max(s.len())
}

// The first byte from i on that belongs to no word.
pub fn word_end(s: &[u8], i: usize) -> usize
    ensures { result ≡ past word_byte s.now i }
{
    past(s, i, is_word_byte)
}

// What a word is. The numbers are places in the list of reserved words.
#[tactic(auto, unfolding(crate::specs::Takes::word_number))]
fn word_symbol(w: &[u8]) -> Symbol
    ensures { number result ≡ word_number w.now }
{
    match reserved_position(w) {
        Some(0) => Symbol::End,
        Some(1) => Symbol::Sort(Sort::String),
        Some(2) => Symbol::Sort(Sort::Float),
        Some(3) => Symbol::Sort(Sort::Boolean),
        Some(4) => Symbol::Sort(Sort::Void),
        _ => Symbol::Word,
    }
}

impl Taken {
    // Whether the token is that symbol. The clause says it of their numbers, by which the contracts of the readers tell tokens apart.
    pub fn is(self, symbol: Symbol) -> bool
        ensures { result ≡ eqb (kind_of self) (number symbol) }
    {
        self.symbol == symbol
    }
}

impl Cursor {
    // The cursor at a byte further on.
    pub fn moved(self, at: usize) -> Cursor
        ensures { result ≡ record { at = at; nodes = self.nodes; uses = self.uses } }
    {
        Cursor { at, ..self }
    }

    // The cursor past the blanks that it stands before.
    pub fn skip(self, s: &[u8]) -> Cursor
        ensures { result ≡ record { at = past blank s.now self.at; nodes = self.nodes; uses = self.uses } }
    {
        self.moved(past(s, self.at, is_blank))
    }

    // The next token.
    #[tactic(auto, using(rules::proofs::TokensBehind::past_from, rules::proofs::TokensBehind::past_within))]
    pub fn take(self, s: &[u8]) -> Taken
        ensures { self.at ≤ length s.now → Takes s.now self result }
    {
        let c = self.skip(s);
        let at = c.at;
        let Some(&b) = s.get(at) else {
            return Taken {
                symbol: Symbol::Nothing,
                at,
                len: 0,
                next: c,
            };
        };
        if !is_letter(b) {
            return Taken {
                symbol: Symbol::Byte(b),
                at,
                len: 1,
                next: c.moved(at + 1),
            };
        }
        let e = word_end(s, at);
        Taken {
            symbol: word_symbol(&s[at..e]),
            at,
            len: e - at,
            next: c.moved(e),
        }
    }
}
