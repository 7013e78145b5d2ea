// Which parts are existentials or universals, by role set whose roles hold, and by label whose fillers are in it: made once for all
// dominoes.
use crate::words::{parts_filled, parts_of, parts_on};
use domino_conditions::numbers::{labels, role_sets};
use flattening::parts::Quantifier;
use tbox::base::Base;

// The parts of each quantifier; by role set, the parts whose role holds.
#[derive(Drop)]
pub struct PartTables {
    pub existentials: u16,
    pub universals: u16,
    pub holds: [u16; 256],
}

impl PartTables {
    ghost use Rattle.domino_conditions.specs.Tables.{view};
    ghost use Rattle.domino_parts.specs.PartTables.{PartTablesOf};

    // Of a knowledge base.
    pub fn of(base: &Base) -> PartTables
        ensures { PartTablesOf (view base.now) result }
    {
        let mut tables = PartTables {
            existentials: parts_of(base, Some(Quantifier::Exists)),
            universals: parts_of(base, Some(Quantifier::Forall)),
            holds: [0; 256],
        };
        for r in 0..role_sets(base.size) {
            tables.holds[r] = parts_on(base, r);
        }
        tables
    }
}

// By label, the parts whose filler is in it: of the six lowest bits of a label, and of the bits above.
#[derive(Drop)]
pub struct FillerTables {
    pub low: [u16; 64],
    pub high: [u16; 64],
}

impl FillerTables {
    ghost use Rattle.std.specs.Prelude.{◌≡◌, ◌^◌, ◌<◌, ◌≤◌};
    ghost use Rattle.domino_conditions.specs.Tables.{view};
    ghost use Rattle.domino_parts.specs.PartWords.{filled_by};
    ghost use Rattle.domino_parts.specs.FillerTables.{FillersOf};
    ghost use Rattle.tbox.specs.declared.base.Base.{Base as BaseData};

    // Of a knowledge base.
    pub fn of(base: &Base) -> FillerTables
        ensures { FillersOf (view base.now) result }
    {
        let mut tables = FillerTables {
            low: [0; 64],
            high: [0; 64],
        };
        let count = labels(base.size);
        for s in 0..count.min(64) {
            tables.low[s] = parts_filled(base, s);
        }
        for s in 0..count / 64 {
            tables.high[s] = parts_filled(base, s << 6);
        }
        tables
    }

    // The parts whose filler is in a label.
    pub fn filled(&self, label: usize) -> u16
        requires { label < 4096 }
        ensures { (b : BaseData) → FillersOf (view b) self.now → label < 2 ^ b.size.parts → result ≡ filled_by (view b) label }
    {
        self.low[label % 64] | self.high[label / 64]
    }
}
