// A sheet loaded as the flattened knowledge base, or refused.
ghost use Rattle.std.specs.Prelude.{◌≡◌, ◌<◌, ◌≤◌, length};
ghost use Rattle.records.specs.Nodes.{node_first};
ghost use Rattle.flattening.specs.Origins.{role_of, part_of};
ghost use Rattle.tbox.specs.Promise.{Loads};
ghost use Rattle.tbox.specs.PlainData.{RoleOf, PartIs, PartsAre};

use crate::admission::{Admitted, PartList};
use crate::base::{Base, Filler, Kind, Part, Size};
use crate::inclusions::closed_words;
use crate::truth::{good_words, role_word};
use arrayvec::ArrayVec;
use flattening::parts::{Origin, Source};
use flattening::sharing::restricted_role;
use records::table::Table;
use refusals::Refusal;
use std::array;

// The flattened knowledge base of a sheet, or its refusal.
pub fn load(sheet: &[u8]) -> Result<Base, Refusal>
    ensures { Loads sheet.now result }
{
    let mut table = Table::new();
    let mut parts = PartList::new();
    let admitted = Admitted::read(sheet, &mut table, &mut parts)?;
    Ok(Base {
        names: admitted.names,
        size: Size {
            parts: admitted.parts.len(),
            roles: admitted.roles,
        },
        parts: parts_of(&table, admitted.parts),
        good: good_words(&table, admitted.names, admitted.parts),
        closed: closed_words(&table),
    })
}

// The parts, by where each comes from.
fn parts_of(table: &Table, origins: &[Origin]) -> ArrayVec<Part, 12>
    requires { length origins.now ≤ 12 }
    ensures { PartsAre table.now origins.now (length origins.now) result.items }
{
    let mut parts = ArrayVec::new();
    for (i, &origin) in origins.iter().enumerate() {
        parts.push(part_at(table, i, origin));
    }
    parts
}

// Part i.
fn part_at(table: &Table, i: usize, origin: Origin) -> Part
    requires { i < 12 }
    ensures { PartIs (part_of table.now i origin) result }
{
    match origin {
        Origin::Name(_) => Part::default(),
        Origin::Fresh(_) => Part {
            kind: Kind::Fresh,
            ..Part::default()
        },
        Origin::Restriction(quantifier, source, atom) => {
            // A filler that needs a fresh name is the next part.
            let next = Filler::Part((i + 1) as u8);
            Part {
                kind: Kind::Restriction(quantifier, atom.map_or(next, Filler::from)),
                role: role_words(table, source),
            }
        }
    }
}

// The role sets on which the role of a restriction holds.
fn role_words(table: &Table, restriction: Source) -> [u64; 4]
    ensures { RoleOf (role_of table.now restriction) result }
{
    let role = restricted_role(table, restriction);
    array::from_fn(|w| role_word(table, role.number, role.below, w as u64))
}
