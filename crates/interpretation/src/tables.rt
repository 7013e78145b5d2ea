// The tables by role set, and by individual the parts whose filler it has: made once for all pairs of individuals.
use domino_parts::tables::PartTables;
use domino_parts::words::parts_filled;
use tbox::base::Base;

// The parts by role set; by individual, the parts whose filler it has: words with a bit a part.
#[derive(Drop)]
pub struct Tables {
    pub parts: PartTables,
    pub fillers: [u16; 1024],
}

impl Tables {
    ghost use Rattle.std.specs.Prelude.{◌≤◌, length};
    ghost use Rattle.domino_conditions.specs.Tables.{view};
    ghost use Rattle.interpretation.specs.Successors.{TablesOf};

    // Of a knowledge base, and of individuals with these names and fresh names.
    pub(crate) fn of(base: &Base, names: &[u16]) -> Tables
        requires { length names.now ≤ 1024 }
        ensures { TablesOf (view base.now) names.now result }
    {
        let mut tables = Tables {
            parts: PartTables::of(base),
            fillers: [0; 1024],
        };
        for (y, drawn) in names.iter().enumerate() {
            tables.fillers[y] = parts_filled(base, usize::from(*drawn));
        }
        tables
    }
}
