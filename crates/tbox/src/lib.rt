// Knowledge bases in ALCIb: reading a sheet, listing its parts, and the flattened knowledge base for the layers above.
#![tactic(auto)]

ghost use Rattle.std.specs.Prelude.{◌≡◌, ◌*◌, ◌≤◌, ◌++◌, length, drop};
ghost use Rattle.std.specs.List.{flat_map};
ghost use Rattle.syntax.specs.Reading.{read_kb};
ghost use Rattle.syntax.specs.Answers.{limit, read_says};
ghost use Rattle.flattening.specs.Origins.{slot_bytes};
ghost use Rattle.tbox.specs.Answers.{read_numbers, AnswersSum, Lists};
ghost use Rattle.tbox.specs.CountedParts.{CountsParts};

use crate::admission::{Admitted, PartList};
use flattening::parts::{Origin, Quantifier};
use records::table::Table;
use refusals::{Reason, Refusal};

pub mod admission;
pub mod base;
mod inclusions;
pub mod loading;
mod places;
mod truth;

// How many parts are names, fresh names, existentials and universals, and how many roles there are: T is the first, L the last, and c
// the sum of the first four.
#[derive(Clone, Copy, PartialEq, Eq)]
pub struct Counts {
    pub names: usize,
    pub fresh: usize,
    pub existentials: usize,
    pub universals: usize,
    pub roles: usize,
}

// Counts a list of parts by kind, beside so many roles.
fn count_parts(parts: &[Origin], roles: usize) -> Counts
    ensures { CountsParts parts.now roles result }
{
    let mut counts = Counts {
        names: 0,
        fresh: 0,
        existentials: 0,
        universals: 0,
        roles,
    };
    for &origin in parts {
        match origin {
            Origin::Name(_) => counts.names += 1,
            Origin::Fresh(_) => counts.fresh += 1,
            Origin::Restriction(Quantifier::Exists, _, _) => counts.existentials += 1,
            Origin::Restriction(Quantifier::Forall, _, _) => counts.universals += 1,
        }
    }
    counts
}

pub fn read(sheet: &[u8]) -> Result<Counts, Refusal>
    ensures value { read_numbers result ≡ read_says (read_kb limit sheet.now) }
    ensures sum { AnswersSum (read_kb limit sheet.now) result }
{
    let mut table = Table::new();
    let mut parts = PartList::new();
    let admitted = Admitted::read(sheet, &mut table, &mut parts)?;
    Ok(count_parts(admitted.parts, admitted.roles))
}

// Three bytes for each part: its kind, its number, and whether it is read under an odd number of nots. Answers how many parts.
pub fn list_marks(sheet: &[u8], list: &mut [u8]) -> Result<usize, Refusal>
    ensures { Lists (read_kb limit sheet.now) list.old list.new result }
{
    let mut table = Table::new();
    let mut parts = PartList::new();
    let admitted = Admitted::read(sheet, &mut table, &mut parts)?;
    let count = admitted.parts.len();
    if list.len() < count + count + count {
        return Err(Refusal::of(Reason::ListTooShort));
    }
    write_parts(admitted.parts, list);
    Ok(count)
}

// The three bytes of one part.
// A call of its own: of a loop with its body in sight the compiler tests the ranges by a product.
#[inline(never)]
fn write_part(slot: &mut [u8], origin: Origin)
    requires { length slot.old ≡ 3 }
    ensures { slot.new ≡ slot_bytes origin }
{
    let (kind, number, odd) = match origin {
        Origin::Name(t) => (0, t, false),
        Origin::Fresh(s) => (1, s.filler, s.odd),
        Origin::Restriction(Quantifier::Exists, s, _) => (2, s.number, s.odd),
        Origin::Restriction(Quantifier::Forall, s, _) => (3, s.number, s.odd),
    };
    slot[0] = kind;
    slot[1] = number;
    slot[2] = u8::from(odd);
}

// The bytes of all parts, from the front; the bytes after them stay.
// A part of the list is lent on, as document 01 asks; its place is a sum, since no product is compiled.
fn write_parts(parts: &[Origin], list: &mut [u8])
    requires { 3 * length parts.now ≤ length list.old }
    ensures { list.new ≡ flat_map slot_bytes parts.now ++ drop (3 * length parts.now) list.old }
{
    for (i, &origin) in parts.iter().enumerate() {
        let from = i + i + i;
        let to = from + 3;
        write_part(&mut list[from..to], origin);
    }
}
