// The tokens of a text: words parted by spaces or line feeds, and parentheses, which need none.
#![tactic(auto)]

ghost use Rattle.std.specs.Prelude.{◌≡◌, length, map};
ghost use Rattle.std.specs.List.{take_while};
ghost use Rattle.owl_words.specs.Words.{is_blank_lem, in_word, spelled_in, known, Finds};

// A token's word: the known ones, the two parentheses, any other word, and the end of the text.
// The last two are no `None`, since in the definitions of the grammar each token is one word.
#[derive(Clone, Copy, PartialEq, Eq)]
pub enum Word {
    SubClassOf,
    IntersectionOf,
    UnionOf,
    ComplementOf,
    SomeValuesFrom,
    AllValuesFrom,
    InverseOf,
    Thing,
    Nothing,
    ClassNamed(u8),
    PropertyNamed(u8),
    Opening,
    Closing,
    Unknown,
    Ending,
}

// A token: its word, how many bytes are left where it begins, and what stands after it.
#[derive(Clone, Copy)]
pub struct Found<'a> {
    pub word: Word,
    pub left: usize,
    pub rest: &'a [u8],
}

// The known words but parentheses: a table and no map, since there is no heap.
const KNOWN_WORDS: [(&[u8], Word); 25] = [
    (b"SubClassOf", Word::SubClassOf),
    (b"ObjectIntersectionOf", Word::IntersectionOf),
    (b"ObjectUnionOf", Word::UnionOf),
    (b"ObjectComplementOf", Word::ComplementOf),
    (b"ObjectSomeValuesFrom", Word::SomeValuesFrom),
    (b"ObjectAllValuesFrom", Word::AllValuesFrom),
    (b"ObjectInverseOf", Word::InverseOf),
    (b"owl:Thing", Word::Thing),
    (b"owl:Nothing", Word::Nothing),
    (b":t0", Word::ClassNamed(0)),
    (b":t1", Word::ClassNamed(1)),
    (b":t2", Word::ClassNamed(2)),
    (b":t3", Word::ClassNamed(3)),
    (b":t4", Word::ClassNamed(4)),
    (b":t5", Word::ClassNamed(5)),
    (b":t6", Word::ClassNamed(6)),
    (b":t7", Word::ClassNamed(7)),
    (b":t8", Word::ClassNamed(8)),
    (b":t9", Word::ClassNamed(9)),
    (b":t10", Word::ClassNamed(10)),
    (b":t11", Word::ClassNamed(11)),
    (b":k0", Word::PropertyNamed(0)),
    (b":k1", Word::PropertyNamed(1)),
    (b":k2", Word::PropertyNamed(2)),
    (b":k3", Word::PropertyNamed(3)),
];

fn is_blank(b: u8) -> bool
    ensures { result ≡ is_blank_lem b }
{
    b == b' ' || b == b'\n'
}

fn in_word(b: u8) -> bool
    ensures { result ≡ in_word b }
{
    !is_blank(b) && b != b'(' && b != b')'
}

// How many blanks a text begins with. Here and below two functions: one over any test would promise less plainly what it counts.
fn blank_len(text: &[u8]) -> usize
    ensures { result ≡ length (take_while is_blank_lem text.now) }
{
    text.iter().take_while(|b| is_blank(**b)).count()
}

// How long the word is that a text begins with.
fn word_len(text: &[u8]) -> usize
    ensures { result ≡ length (take_while in_word text.now) }
{
    text.iter().take_while(|b| in_word(**b)).count()
}

// The word of the first entry that is spelled so.
fn lookup(table: &[(&[u8], Word)], w: &[u8]) -> Word
    ensures { result ≡ spelled_in (map (λ k. (k.0.now, k.1)) table.now) w.now }
{
    table
        .iter()
        .find(|entry| entry.0 == w)
        .map_or(Word::Unknown, |entry| entry.1)
}

// The known word that is spelled so.
fn known_word(w: &[u8]) -> Word
    ensures { result ≡ known w.now }
{
    lookup(&KNOWN_WORDS, w)
}

// The token that a text begins with.
pub fn next_token(text: &[u8]) -> Found<'_>
    ensures { Finds text.now result }
{
    let s = &text[blank_len(text)..];
    let left = s.len();
    let Some((first, rest)) = s.split_first() else {
        return Found {
            word: Word::Ending,
            left,
            rest: s,
        };
    };
    match *first {
        b'(' => Found {
            word: Word::Opening,
            left,
            rest,
        },
        b')' => Found {
            word: Word::Closing,
            left,
            rest,
        },
        _ => {
            let (word, rest) = s.split_at(word_len(s));
            Found {
                word: known_word(word),
                left,
                rest,
            }
        }
    }
}
