// The role sets between the individuals of a file, a block of rows at a time: a byte for each pair, 1,024 bytes a row.
#![tactic(auto)]

ghost use Rattle.std.specs.Prelude.{◌≡◌, ◌<◌, ◌/◌, length};
ghost use Rattle.drawings.specs.Entries.{entries_of, connections_of};
ghost use Rattle.drawing_entries.specs.Reading.{connection_is};
ghost use Rattle.drawing_rows.specs.Rows.{Rows, AllNumbered, Numbered, byte_at, InSet, InRows, RowsFilled};

use drawing_entries::{Connection, Entry, entry_at};

// Puts bit b of the pair of the individuals x and y in, if the row of x is among those from `start` on.
// A set in words, since `insert` is of one; a row has 8,192 numbers.
fn put_role(words: &mut [u64], start: usize, x: usize, y: usize, b: usize)
    requires { Rows start words.old × (x < 65536) × (y < 1024) × (b < 8) }
    ensures { InSet start x y b words.old words.new }
{
    let row = x.wrapping_sub(start);
    if row < words.len() / 128 {
        bitset::insert(words, (row << 13) + (y << 3) + b);
    }
}

// The role of a connection, and its inverse the other way.
fn put_connection(words: &mut [u64], start: usize, c: Connection)
    requires { Rows start words.old × Numbered (connection_is c) }
    ensures { InRows start (connection_is c) words.old words.new }
{
    put_role(words, start, c.from, c.to, c.role + c.role);
    put_role(words, start, c.to, c.from, c.role + c.role + 1);
}

// The rows of the individuals from `start` on, 128 words each, of all connections of a file.
pub fn fill_rows(words: &mut [u64], start: usize, file: &[u8])
    requires { Rows start words.old × AllNumbered (connections_of (entries_of file.now)) }
    ensures { RowsFilled start (connections_of (entries_of file.now)) words.old words.new }
{
    bitset::runs::clear_words(words, 0, words.len());
    let mut at = 0;
    while at < file.len() {
        let Some(entry) = entry_at(file, at) else {
            return;
        };
        if let Entry::Connection(c) = entry {
            put_connection(words, start, c);
        }
        at += entry.size();
    }
}

// The role set of a pair of individuals: byte p of rows.
pub fn byte(words: &[u64], p: usize) -> usize
    requires { p / 8 < length words.now }
    ensures { result ≡ byte_at words.now p }
{
    let word = words[p / 8] >> (p % 8 << 3);
    (word % 256) as usize
}
