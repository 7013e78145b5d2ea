// Loads worked sheets and writes the flattened knowledge base of each, to be compared with what a separate program writes.
#![tactic(auto)]

ghost use Rattle.std.specs.Prelude.{◌≡◌};
ghost use Rattle.tbox.specs.Promise.{kind_number, filler_number};

use flattening::parts::Quantifier;
use std::io::{Print, Stdout};
use tbox::base::{Base, Filler, Kind, Part};

const SHEETS: [&[u8]; 17] = [
    b"",
    b"\x01\x10\x00\x03\x00\x07\x01\x02\x20\x00\x03",
    b"\x01\x10\x00\x03\x00\x07\x01\x02\x20\x00\x03\x02\x20\x02\x05",
    b"\x01\x10\x00\x03\x00\x07\x01\x02\x20\x00\x03\x11\x00\x02\x08\x05\x06\x20\x02\x07",
    b"\x10\x00\x01\x08\x00\x01\x02\x20\x02\x03",
    b"\x01\x03\x00\x10\x00\x08\x02\x00\x06\x01\x03\x20\x00\x04",
    b"\x03\x00\x10\x00\x04\x00\x07\x01\x02\x20\x00\x03",
    b"\x01\x10\x00\x03\x00\x07\x01\x02\x07\x01\x03\x20\x00\x04\x07\x01\x02\x20\x00\x06",
    b"\x03\x01\x10\x03\x11\x00\x12\x02\x13\x01\x03\x10\x01\x10\x02\x13\x05\x06\x14\x04\x07\x07\x08\x00\x11\x02\x04\x09\x08\x0a\x0b\x01\x20\x0d\x0c",
    b"\x03\x00\x03\x03\x04\x01\x05\x00\x02\x10\x00\x07\x04\x00\x03\x06\x06\x05\x06\x20\x03\x07\x03\x01\x08\x04\x09\x03\x05\x20\x0a\x0b\x01\x03\x02\x11\x00\x02\x07\x0f\x10\x05\x0e\x11\x04\x12\x20\x0d\x13",
    b"\x10\x00\x10\x01\x12\x01\x13\x00\x02\x12\x01\x13\x00\x04\x12\x01\x13\x06\x00\x03\x00\x07\x03\x08\x04\x08\x04\x0a\x07\x05\x0b\x07\x07\x08\x01\x20\x0e\x09\x20\x0e\x0c\x20\x0e\x0d",
    b"\x03\x0b\x10\x00",
    b"\x03\x00\x04\x00\x05\x01\x01",
    b"\x01\x10\x00\x10\x01\x02\x07\x01\x00\x20\x00\x04\x08\x02\x03\x20\x00\x06\x21\x01\x02",
    b"\x10\x00\x11\x00\x10\x01\x11\x02\x21\x00\x02\x21\x02\x03\x21\x01\x00\x01\x03\x00\x07\x03\x08\x20\x07\x09",
    b"\x10\x00\x11\x01\x12\x01\x13\x00\x02\x11\x03\x12\x04\x14\x05\x01\x21\x03\x06\x10\x01\x21\x01\x04\x03\x01\x08\x08\x0a\x20\x0a\x0b",
    b"\x10\x00\x12\x00\x21\x01\x00",
];

// Words, which end a line. A failed write is ignored, here and below: what is missing shows when the output is compared.
fn write_words(stdout: &Stdout, words: &[u64]) {
    for word in words {
        let _ = print!(stdout; " {word:016x}");
    }
    let _ = println!(stdout);
}

// Kinds and fillers get their numbers here, since this program alone writes numbers; the types of `tbox` have none.

// The number of a part's kind: 0 name, 1 fresh, 2 existential, 3 universal.
#[tactic(auto, unfolding(tbox::specs::Promise::kind_number))]
fn number_of(kind: Kind) -> u64
    ensures { result ≡ kind_number kind }
{
    match kind {
        Kind::Name => 0,
        Kind::Fresh => 1,
        Kind::Restriction(Quantifier::Exists, _) => 2,
        Kind::Restriction(Quantifier::Forall, _) => 3,
    }
}

// The number of a restriction's filler: a part's, 256 for everything, 257 for nothing; 0 for a part that has none.
#[tactic(auto, unfolding(tbox::specs::Promise::filler_number))]
fn filler_of(kind: Kind) -> u64
    ensures { result ≡ filler_number kind }
{
    match kind {
        Kind::Name | Kind::Fresh => 0,
        Kind::Restriction(_, Filler::Everything) => 256,
        Kind::Restriction(_, Filler::Nothing) => 257,
        Kind::Restriction(_, Filler::Part(k)) => u64::from(k),
    }
}

// A line for each part: its kind's number, its filler's, and the role sets of its role, four words.
fn write_parts(stdout: &Stdout, parts: &[Part]) {
    for part in parts {
        let (kind, filler) = (number_of(part.kind), filler_of(part.kind));
        let _ = print!(stdout; "part {kind} {filler}");
        write_words(stdout, &part.role);
    }
}

// The counts of names, roles and parts, the parts, the labels on which every flattened axiom holds, and the role sets on which every
// role inclusion holds.
fn write_base(stdout: &Stdout, base: &Base) {
    let (names, roles, parts) = (base.names, base.size.roles, base.size.parts);
    let _ = println!(stdout; "kb {names} {roles} {parts}");
    write_parts(stdout, &base.parts);
    let _ = print!(stdout; "labels");
    write_words(stdout, &base.good[..bitset::words_for(parts)]);
    let _ = print!(stdout; "role sets");
    write_words(stdout, &base.closed);
}

fn report(stdout: &Stdout, sheet: &[u8]) {
    match tbox::loading::load(sheet) {
        Ok(base) => write_base(stdout, &base),
        Err(refusal) => {
            let (number, place) = (refusal.reason.number(), refusal.place);
            let _ = println!(stdout; "refused {number} {place}");
        }
    }
}

fn main(rt: HostRuntime) {
    let stdout = &rt.stdout();
    for sheet in SHEETS {
        report(stdout, sheet);
    }
}
