// The dominoes that live labels span, put into lent words.
ghost use Rattle.std.specs.Prelude.{◌+◌, ◌-◌, ◌*◌, ◌/◌, ◌%◌, ◌<◌, ◌≤◌, ◌&&◌, length};
ghost use Rattle.bitset.specs.Bits.{bit};
ghost use Rattle.bitset.specs.Runs.{Added};
ghost use Rattle.domino_initial.specs.RightMasks.{allows};
ghost use Rattle.domino_conditions.specs.Tables.{Room};
ghost use Rattle.domino_labels.specs.Live.{allowed_live};

use crate::fitting::{Fitting, Row};
use domino_conditions::numbers::{index, labels, pow, role_sets};
use domino_initial::masks::RightMask;

// Of the run of right labels from `at` on, which is part of a word, puts in what a mask allows and is live. Answers how many.
fn put_part(set: &mut [u64], mask: RightMask, live: u64, at: usize, labels: usize) -> u64
    requires { (at / 64 < length set.old) × (labels ≤ 32) × (at % 64 + labels ≤ 64) }
    ensures { Added (λ n. allows mask (n - at) && bit live (n - at)) at (at + labels) set.old set.new result }
{
    let part = mask.first_word() & live & ((1u64 << labels) - 1);
    set[at / 64] |= part << (at % 64);
    u64::from(part.count_ones())
}

// The same for a run of whole words, from word `start` on.
fn put_words(set: &mut [u64], mask: RightMask, live: &[u64; 64], start: usize, count: usize) -> u64
    requires { (start + count ≤ length set.old) × (count ≤ 64) }
    ensures { Added (allowed_live mask live.now start) (64 * start) (64 * start + 64 * count) set.old set.new result }
{
    let low = mask.low_word();
    let above = mask.high();
    let mut total = 0;
    for i in 0..count {
        if above.allows(i) {
            let word = low & live[i];
            set[start + i] |= word;
            total += u64::from(word.count_ones());
        }
    }
    total
}

// Words that dominoes are put into, and live labels: there is room for each domino.
#[derive(Drop)]
pub struct Writing<'a> {
    pub set: &'a mut [u64],
    pub fitting: &'a Fitting<'a>,
    pub live: &'a [u64; 64],
    ghost room: { Room fitting.now.base.now (length set.now) },
}

impl Writing<'_> {
    ghost use Rattle.std.specs.Prelude.{◌≡◌, ◌*◌, ◌^◌, ◌<◌, true};
    ghost use Rattle.bitset.specs.Bits.{look};
    ghost use Rattle.domino_labels.specs.Fittings.{RoleSet};
    ghost use Rattle.domino_labels.specs.Writings.{OwnRow, PutsRun, PutsRow, PutsAll};

    // Of the run (a, r, _) the dominoes with a live right label.
    fn put_run(&mut self, row: &Row, r: usize) -> u64
        requires { OwnRow self.old row.now × RoleSet row.now r × (look self.old.fitting.now.closed r ≡ true) }
        ensures { PutsRun row.now.label r self.old self.new result }
    {
        let size = self.fitting.base.size;
        let live = self.live;
        let set = &mut *self.set;
        let at = index(size, row.label, r, 0);
        let mask = row.fitting_both(r);
        if size.parts < 6 {
            put_part(set, mask, live[0], at, labels(size))
        } else {
            put_words(set, mask, live, at / 64, pow(size.parts - 6))
        }
    }

    // Of the row of a live label a.
    fn put_row(&mut self, a: usize) -> u64
        requires { (a < 2 ^ self.old.fitting.now.base.now.size.parts) × (look self.old.live.now a ≡ true) }
        ensures { PutsRow a self.old self.new result }
    {
        let fitting = self.fitting;
        let row = fitting.row(a);
        let mut total = 0;
        for r in 0..role_sets(fitting.base.size) {
            if fitting.pairs(r) {
                total += self.put_run(&row, r);
            }
        }
        total
    }

    // All dominoes that the live labels span. Answers how many.
    pub(crate) fn put_all(&mut self) -> u64
        ensures { PutsAll self.old self.new result }
    {
        let live = self.live;
        let mut total = 0;
        for a in 0..labels(self.fitting.base.size) {
            if bitset::member(live, a) {
                total += self.put_row(a);
            }
        }
        total
    }
}
