// The dominoes of all pairs of individuals of a file, and the first pair that breaks a role inclusion.
ghost use Rattle.std.specs.Prelude.{◌≡◌, ◌*◌, ◌^◌};
ghost use Rattle.elimination.specs.Sets.{every};
ghost use Rattle.domino_conditions.specs.Tables.{view};

use crate::drawing::{Drawing, Finding};
use domino_conditions::conditions::is_closed;
use domino_conditions::numbers::{index, role_sets, words_for};
use drawing_rows::byte;
use tbox::base::Base;

// Are all role sets closed? Then no pair breaks a role inclusion.
fn all_closed(base: &Base) -> bool
    ensures { result ≡ every (2 ^ (2 * base.now.size.roles)) (view base.now).closed }
{
    for r in 0..role_sets(base.size) {
        if !is_closed(base, r) {
            return false;
        }
    }
    true
}

impl Drawing<'_> {
    ghost use Rattle.std.specs.Prelude.{ℕ, ◌+◌, ◌<◌, List, length};
    ghost use Rattle.domino_conditions.specs.Tables.{Room, Enough};
    ghost use Rattle.drawings.specs.Checking.{breaks_between};
    ghost use Rattle.drawing_rows.specs.Rows.{Joins};
    ghost use Rattle.interpretation.specs.Drawings.{view_of, drawn, count_of, RowOf, BlockOf, AllLabelled, row_set, rows_set};
    ghost use Rattle.interpretation.specs.Drawings.{NoPair, PairBelow, FindsLeast, PutsAll};

    // Puts the dominoes of x with each individual in, by the row of x and all labels.
    fn put_row(&self, row: &[u64], x: usize, labels: &[u16; 1024], set: &mut [u64])
        requires { RowOf self.now x row.now × (x < count_of self.now) × AllLabelled self.now labels.now
            × Room self.now.base.now (length set.old) }
        ensures { Joins (row_set self.now x) set.old set.new }
    {
        let size = self.base.size;
        let a = usize::from(labels[x]);
        for to in 0..self.names.len() {
            bitset::insert(set, index(size, a, byte(row, to), usize::from(labels[to])));
        }
    }

    // Puts the dominoes of a block's individuals in.
    fn put_block(
        &self,
        block: &[u64; 16384],
        start: usize,
        count: usize,
        labels: &[u16; 1024],
        set: &mut [u64],
    )
        requires { BlockOf self.now start block.now count × AllLabelled self.now labels.now × Room self.now.base.now (length set.old) }
        ensures { (ws : List ℕ) → Joins (rows_set self.now start) ws set.old → Joins (rows_set self.now (start + count)) ws set.new }
    {
        for i in 0..count {
            let row = &block[i << 7..(i << 7) + 128];
            self.put_row(row, start + i, labels, set);
        }
    }

    // The first individual with which x breaks a role inclusion, by the row of x.
    fn first_open(&self, row: &[u64], x: usize) -> Option<usize>
        requires { RowOf self.now x row.now }
        ensures { FindsLeast (count_of self.now) (breaks_between (view_of self.now) (drawn self.now) x) result }
    {
        for y in 0..self.names.len() {
            if !is_closed(self.base, byte(row, y)) {
                return Some(y);
            }
        }
        None
    }

    // The first pair that breaks a role inclusion, of those that begin in a block, if none begins before it.
    fn pair_in_block(&self, block: &[u64; 16384], start: usize, count: usize) -> Finding
        requires { BlockOf self.now start block.now count }
        ensures { NoPair self.now start → PairBelow self.now (start + count) result }
    {
        for i in 0..count {
            let row = &block[i << 7..(i << 7) + 128];
            if let Some(y) = self.first_open(row, start + i) {
                return Finding::Pair(start + i, y);
            }
        }
        Finding::Holds
    }

    // The first pair of those that begin before a block or in it, from the first of those before. Where all role sets are closed the
    // block need not be looked at.
    fn pair_after(
        &self,
        found: Finding,
        block: &[u64; 16384],
        start: usize,
        count: usize,
    ) -> Finding
        requires { BlockOf self.now start block.now count }
        ensures { PairBelow self.now start found → PairBelow self.now (start + count) result }
    {
        match found {
            Finding::Holds => {
                if all_closed(self.base) {
                    return found;
                }
                self.pair_in_block(block, start, count)
            }
            _ => found,
        }
    }

    // Writes the dominoes of all pairs, and answers the first pair that breaks a role inclusion.
    pub(crate) fn put_all(
        &self,
        block: &mut [u64; 16384],
        labels: &[u16; 1024],
        set: &mut [u64],
    ) -> Finding
        requires { AllLabelled self.now labels.now × Enough self.now.base.now (length set.old) }
        ensures { PutsAll self.now set.old set.new result }
    {
        bitset::runs::clear_words(set, 0, words_for(self.base.size));
        let mut found = Finding::Holds;
        let mut start = 0;
        while start < self.names.len() {
            let count = self.fill(block, start);
            self.put_block(block, start, count, labels, set);
            found = self.pair_after(found, block, start, count);
            start += count;
        }
        found
    }
}
