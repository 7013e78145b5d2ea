// An interpretation on file, read record by record: the first fault, and the individuals.
#![tactic(auto)]

ghost use Rattle.std.specs.Prelude.{◌≡◌, ◌+◌, ◌<◌, length, drop};
ghost use Rattle.bitset.specs.Bits.{bit};
ghost use Rattle.drawings.specs.Entries.{two_bytes, entry_of, entry_fault};
ghost use Rattle.drawing_entries.specs.Reading.{entry_is, entry_size, may_be, fault_number, Reads};

use refusals::{Reason, Refusal};

// The most individuals of a file.
pub const MOST_INDIVIDUALS: usize = 1024;

// Document 02's connection: from an individual to another, by a role.
#[derive(Clone, Copy, PartialEq, Eq)]
pub struct Connection {
    pub from: usize,
    pub to: usize,
    pub role: usize,
}

// A record: an individual, with its names and fresh names as bits, or a connection.
#[derive(Clone, Copy, PartialEq, Eq)]
pub enum Entry {
    Individual(u16),
    Connection(Connection),
}

impl Entry {
    // How many bytes it takes.
    pub fn size(self) -> usize
        ensures { result ≡ entry_size self }
    {
        match self {
            Entry::Individual(_) => 3,
            Entry::Connection(_) => 6,
        }
    }
}

// Two bytes, low first.
fn two_bytes(file: &[u8], at: usize) -> u16
    requires { at + 1 < length file.now }
    ensures { result ≡ two_bytes file.now at }
{
    u16::from(file[at]) + (u16::from(file[at + 1]) << 8)
}

// The record at a place. None: its kind is unknown, or it is cut off.
pub fn entry_at(file: &[u8], at: usize) -> Option<Entry>
    requires { at < length file.now }
    ensures { may_be result ≡ entry_of (drop at file.now) }
{
    let left = file.len() - at;
    match file[at] {
        0x40 if left >= 3 => Some(Entry::Individual(two_bytes(file, at + 1))),
        0x41 if left >= 6 => Some(Entry::Connection(Connection {
            from: usize::from(two_bytes(file, at + 1)),
            to: usize::from(two_bytes(file, at + 3)),
            role: usize::from(file[at + 5]),
        })),
        _ => None,
    }
}

// What is wrong with a record after `count` individuals.
fn fault_of(entry: Entry, count: usize, plain: usize, roles: usize) -> Option<Reason>
    ensures { fault_number result ≡ entry_fault (bit plain) roles count (entry_is entry) }
{
    match entry {
        Entry::Individual(names) => {
            if count >= MOST_INDIVIDUALS {
                return Some(Reason::TooManyIndividuals);
            }
            (usize::from(names) & plain != usize::from(names)).then_some(Reason::NoSuchNumber)
        }
        Entry::Connection(c) => {
            if c.from < count && c.to < count && c.role < roles {
                None
            } else {
                Some(Reason::NoSuchNumber)
            }
        }
    }
}

// The individuals of a file: their number, and into `names` the names and fresh names of each. Or the first fault.
// `plain` has the bits of the parts that are names or fresh names.
pub fn read_individuals(
    file: &[u8],
    plain: usize,
    roles: usize,
    names: &mut [u16; MOST_INDIVIDUALS],
) -> Result<usize, Refusal>
    ensures { Reads plain roles file.now names.new result }
{
    let mut at = 0;
    let mut count = 0;
    // By place, since the records are of different lengths.
    while at < file.len() {
        let Some(entry) = entry_at(file, at) else {
            return Err(Refusal::of(Reason::UnreadableEntry));
        };
        if let Some(reason) = fault_of(entry, count, plain, roles) {
            return Err(Refusal::of(reason));
        }
        if let Entry::Individual(bits) = entry {
            names[count] = bits;
            count += 1;
        }
        at += entry.size();
    }
    if count == 0 {
        return Err(Refusal::of(Reason::NoIndividuals));
    }
    Ok(count)
}
