// Reading a sheet into its records and parts, or its refusal.
ghost use Rattle.std.specs.Prelude.{◌+◌, ◌≤◌, length};

use arrayvec::ArrayVec;
use flattening::parts::{Origin, flatten};
use records::scan;
use records::table::Table;
use refusals::{Reason, Refusal};

// Parts and roles together are at most this many: document 01's limit on c + L.
const LIMIT: usize = 12;

// The list that a caller lends for the parts.
pub type PartList = ArrayVec<Origin, LIMIT>;

// What a sheet that is read has beside its records: how many names and roles, and the parts, in the caller's list.
#[derive(Clone, Copy)]
pub struct Admitted<'a> {
    pub names: usize,
    pub roles: usize,
    pub parts: &'a [Origin],
    pub ghost small: { length parts.now + roles ≤ 12 },
    pub ghost few: { roles ≤ 4 },
}

impl<'a> Admitted<'a> {
    ghost use Rattle.tbox.specs.Admission.{Admits};

    // Reads a sheet into a table of its records and a list of its parts, which the caller lends.
    pub fn read(
        sheet: &[u8],
        table: &mut Table,
        parts: &'a mut PartList,
    ) -> Result<Admitted<'a>, Refusal>
        ensures { Admits sheet.now table.new result }
    {
        let scanned = scan(sheet, table)?;
        // No `?`: the error has nothing to convert, and the closure of a `map_err` would ignore it.
        let Ok(list) = flatten(table, scanned.names) else {
            return Err(Refusal::of(Reason::TooManyParts));
        };
        *parts = list;
        if LIMIT < parts.len() + scanned.roles {
            return Err(Refusal::of(Reason::TooManyParts));
        }
        Ok(Admitted {
            names: scanned.names,
            roles: scanned.roles,
            parts: parts.as_slice(),
        })
    }
}
