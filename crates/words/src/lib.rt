// Bytes and words: which bytes are blank, which make a word, which words are reserved, and whether two words are the same. A word is
// handed in as a part of the caller's bytes, `&s[a..e]`, and read where it stands; nothing is copied. Each function answers the
// definition of its name in `rules` (`same_bytes` answers `same`), for any bytes, and asks nothing of its caller. It takes no table and
// calls no other crate.
#![tactic(auto)]

ghost use Rattle.std.specs.Prelude.{◌≡◌, ◌<◌, [], length, get_or};
ghost use Rattle.rules.specs.Basics.{same};
ghost use Rattle.rules.specs.Words.{blank, letter, word_byte, word_bytes, is_word, reserved_words, reserved_position, may_name};
ghost use Rattle.words.specs.Found.{found};

// "1 to 16 bytes"
pub const WORD_MOST: usize = 16;

// "`end`, `string`, `float`, `boolean` and `void` are reserved": one to a row, and how much of the row it takes.
pub const RESERVED_COUNT: usize = 5;

// Document 01 names this form, "a constant table of the reserved words' bytes and lengths" (docs/FORMS.md). A row has room for the longest of
// them, `boolean`.
const ROW: usize = 7;

const RESERVED_BYTES: [u8; RESERVED_COUNT * ROW] = *b"end    string float  booleanvoid   ";

const RESERVED_LENGTHS: [usize; RESERVED_COUNT] = [3, 6, 5, 7, 4];

#[tactic(auto, unfolding(rules::specs::Words::blank))]
pub fn is_blank(b: u8) -> bool
    ensures { result ≡ blank b }
{
    matches!(b, b' ' | b'\t' | b'\n' | b'\r')
}

#[tactic(auto, unfolding(rules::specs::Words::letter))]
pub fn is_letter(b: u8) -> bool
    ensures { result ≡ letter b }
{
    b.is_ascii_alphabetic()
}

#[tactic(auto, unfolding(rules::specs::Words::word_byte, rules::specs::Words::letter))]
pub fn is_word_byte(b: u8) -> bool
    ensures { result ≡ word_byte b }
{
    b.is_ascii_alphanumeric() || b == b'_'
}

fn word_bytes(w: &[u8]) -> bool
    ensures { result ≡ word_bytes w.now }
{
    w.iter().all(|b| is_word_byte(*b))
}

pub fn is_word(w: &[u8]) -> bool
    ensures { result ≡ is_word w.now }
{
    match w.split_first() {
        None => false,
        // The length first: of a slice that is too long no byte more is looked at.
        Some((first, rest)) => w.len() <= WORD_MOST && is_letter(*first) && word_bytes(rest),
    }
}

// Whether two words are the same, byte by byte: case counts.
pub fn same_bytes(a: &[u8], b: &[u8]) -> bool
    ensures { result ≡ same a.now b.now }
{
    a == b
}

// Whether w is the reserved word of row k.
fn is_reserved_at(w: &[u8], k: usize) -> bool
    requires { k < length reserved_words }
    ensures { result ≡ same w.now (get_or reserved_words k []) }
{
    let at = k * ROW;
    same_bytes(w, &RESERVED_BYTES[at..at + RESERVED_LENGTHS[k]])
}

// Which reserved word w is, by its row; `None` where it is none of them.
pub fn reserved_position(w: &[u8]) -> Option<usize>
    ensures { result ≡ found RESERVED_COUNT (reserved_position w.now) }
{
    (0..RESERVED_COUNT).find(|k| is_reserved_at(w, *k))
}

// Whether w may be a label, or a definition's name.
#[tactic(auto, unfolding(rules::specs::Words::may_name, rules::specs::Words::reserved))]
pub fn may_name(w: &[u8]) -> bool
    ensures { result ≡ may_name w.now }
{
    is_word(w) && reserved_position(w).is_none()
}
