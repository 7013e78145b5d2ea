// The labels of the individuals of a file.
ghost use Rattle.std.specs.Prelude.{◌*◌, ◌≤◌, length};
ghost use Rattle.interpretation.specs.Successors.{SuccessorsTo};

use crate::drawing::Drawing;
use crate::tables::Tables;
use domino_conditions::conditions::is_good;
use drawing_rows::byte;

// Of an individual's successors so far: the parts whose role reaches one with the filler, and the parts whose role reaches one without.
#[derive(Clone, Copy, Default)]
pub struct Successors {
    pub met: u16,
    pub missed: u16,
}

impl Successors {
    ghost use Rattle.std.specs.Prelude.{ℕ, ◌≡◌, ◌*◌, ◌<◌, ◌≤◌, length};
    ghost use Rattle.bitset.specs.Bits.{bit};
    ghost use Rattle.interpretation.specs.Successors.{SuccessorsTo, concluded};

    // With the individuals from `from` on, up to `to`.
    fn and_of(self, tables: &Tables, row: &[u64], from: usize, to: usize) -> Successors
        requires { (from ≤ to) × (to ≤ 1024) × (to ≤ 8 * length row.now) }
        ensures { SuccessorsTo tables.now row.now from self → SuccessorsTo tables.now row.now to result }
    {
        let mut successors = self;
        for y in from..to {
            let reached = tables.parts.holds[byte(row, y)];
            let filled = tables.fillers[y];
            successors.met |= reached & filled;
            successors.missed |= reached & !filled;
        }
        successors
    }

    // The label of an individual with these names and fresh names, of which these are all successors.
    fn label(self, tables: &Tables, names: u16) -> u16
        ensures { (k : ℕ) → k < 16 → bit result k ≡ concluded tables.now self names k }
    {
        names | (self.met & tables.parts.existentials) | (!self.missed & tables.parts.universals)
    }
}

// All successors of an individual, from its row. Eight pairs without a role are passed over, if no part's role holds on none.
fn successors_of(tables: &Tables, row: &[u64], count: usize) -> Successors
    requires { (count ≤ 1024) × (count ≤ 8 * length row.now) }
    ensures { SuccessorsTo tables.now row.now count result }
{
    let mut successors = Successors::default();
    let mut from = 0;
    while from < count {
        let to = count.min(from + 8);
        if row[from / 8] != 0 || tables.parts.holds[0] != 0 {
            successors = successors.and_of(tables, row, from, to);
        }
        from = to;
    }
    successors
}

impl Drawing<'_> {
    ghost use Rattle.std.specs.Prelude.{◌≡◌, ◌+◌, ◌<◌};
    ghost use Rattle.drawings.specs.Checking.{label, breaks_at};
    ghost use Rattle.interpretation.specs.Successors.{TablesOf};
    ghost use Rattle.interpretation.specs.Drawings.{view_of, drawn, count_of, RowOf, BlockOf, Labelled, AllLabelled, FindsLeast};

    // The label of the individual x, by its row.
    fn label(&self, tables: &Tables, row: &[u64], x: usize) -> u16
        requires { TablesOf (view_of self.now) self.now.names.now tables.now × RowOf self.now x row.now × (x < count_of self.now) }
        ensures { result ≡ label (view_of self.now) (drawn self.now) x }
    {
        successors_of(tables, row, self.names.len()).label(tables, self.names[x])
    }

    // The labels of the individuals of a block.
    fn label_block(
        &self,
        tables: &Tables,
        block: &[u64; 16384],
        start: usize,
        count: usize,
        labels: &mut [u16; 1024],
    )
        requires { TablesOf (view_of self.now) self.now.names.now tables.now × BlockOf self.now start block.now count }
        ensures { Labelled self.now labels.old start → Labelled self.now labels.new (start + count) }
    {
        for i in 0..count {
            let row = &block[i << 7..(i << 7) + 128];
            labels[start + i] = self.label(tables, row, start + i);
        }
    }

    // The labels of all individuals.
    pub(crate) fn label_all(&self, block: &mut [u64; 16384], labels: &mut [u16; 1024])
        ensures { AllLabelled self.now labels.new }
    {
        let tables = Tables::of(self.base, self.names);
        let mut start = 0;
        while start < self.names.len() {
            let count = self.fill(block, start);
            self.label_block(&tables, block, start, count, labels);
            start += count;
        }
    }

    // The first individual whose label breaks an axiom.
    pub(crate) fn first_bad(&self, labels: &[u16; 1024]) -> Option<usize>
        requires { AllLabelled self.now labels.now }
        ensures { FindsLeast (count_of self.now) (breaks_at (view_of self.now) (drawn self.now)) result }
    {
        for x in 0..self.names.len() {
            if !is_good(self.base, usize::from(labels[x])) {
                return Some(x);
            }
        }
        None
    }
}
