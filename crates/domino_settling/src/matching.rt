// Matching: of a run (left, r, _) the dominoes whose converse is out are taken out.
ghost use Rattle.std.specs.Prelude.{◌≡◌, ◌*◌, ◌^◌, ◌<◌, ◌≤◌, length};
ghost use Rattle.semantics.specs.Dominoes.{total, number, inverse};

use domino_conditions::numbers::{index, inverse, labels, pow, role_sets};
use tbox::base::Size;

// The run (left, r, _): `back` is the inverse of r, and `at` the number of (left, r, 0).
#[derive(Clone, Copy)]
struct Run {
    size: Size,
    left: usize,
    back: usize,
    at: usize,
    ghost few: { size.roles ≤ 4 },
    ghost label: { left < 2 ^ size.parts },
    ghost converse: { back < 2 ^ (2 * size.roles) },
    ghost first: { at ≡ number size.parts size.roles left (inverse size.roles back) 0 },
}

impl Run {
    ghost use Rattle.std.specs.Prelude.{◌*◌, ◌^◌, ◌<◌, ◌≤◌};
    ghost use Rattle.domino_settling.specs.Sweeps.{IsRun};

    fn new(size: Size, left: usize, r: usize) -> Self
        requires { (size.roles ≤ 4) × (left < 2 ^ size.parts) × (r < 2 ^ (2 * size.roles)) }
        ensures { IsRun size left r result }
    {
        Run {
            size,
            left,
            back: inverse(size.roles, r),
            at: index(size, left, r, 0),
        }
    }
}

// A run and the lent words that it is matched in: there is room for each domino.
#[derive(Drop)]
pub(crate) struct Matching<'a> {
    set: &'a mut [u64],
    run: Run,
    ghost room: { total run.size.parts run.size.roles ≤ 64 * length set.now },
}

impl Matching<'_> {
    ghost use Rattle.std.specs.Prelude.{◌≡◌, ◌+◌, ◌%◌, ◌^◌, ◌≤◌, length};
    ghost use Rattle.domino_conditions.specs.Tables.{RowOf};
    ghost use Rattle.domino_settling.specs.Sweeps.{MatchedIn, MatchedRow};

    // Takes out each of the `count` dominoes from (left, r, from) on whose converse is out. Was there any?
    fn match_some(&mut self, from: usize, count: usize) -> bool
        requires { from + count ≤ 2 ^ self.old.run.size.parts }
        ensures { MatchedIn from (from + count) self.old self.new result }
    {
        let run = self.run;
        let set = &mut *self.set;
        let mut moved = false;
        for b in from..from + count {
            let n = run.at + b;
            if bitset::member(set, n)
                && !bitset::member(set, index(run.size, b, run.back, run.left))
            {
                bitset::clear(set, n);
                moved = true;
            }
        }
        moved
    }

    // The same for the 64 dominoes of a word that is not zero; bytes that are zero are passed over.
    fn match_word(&mut self, from: usize) -> bool
        requires { (from + 64 ≤ 2 ^ self.old.run.size.parts) × ((self.old.run.at + from) % 64 ≡ 0) }
        ensures { MatchedIn from (from + 64) self.old self.new result }
    {
        let j = (self.run.at + from) / 64;
        let mut moved = false;
        for i in 0..8 {
            let k = i << 3;
            if (self.set[j] >> k) % 256 != 0 {
                moved |= self.match_some(from + k, 8);
            }
        }
        moved
    }

    // The same for a run of whole words, of which those that are zero are passed over.
    fn match_words(&mut self) -> bool
        requires { 6 ≤ self.old.run.size.parts }
        ensures { MatchedIn 0 (2 ^ self.old.run.size.parts) self.old self.new result }
    {
        let start = self.run.at / 64;
        let mut moved = false;
        for i in 0..pow(self.run.size.parts - 6) {
            // By index, since the call inside takes the whole set.
            if self.set[start + i] != 0 {
                moved |= self.match_word(i << 6);
            }
        }
        moved
    }

    // The same for the run.
    fn match_all(&mut self) -> bool
        ensures { MatchedIn 0 (2 ^ self.old.run.size.parts) self.old self.new result }
    {
        if 6 <= self.run.size.parts {
            return self.match_words();
        }
        let count = labels(self.run.size);
        let set = &mut *self.set;
        if bitset::runs::part_empty(set, self.run.at, count) {
            return false;
        }
        self.match_some(0, count)
    }

    // Takes out each domino of the row a whose converse is out. Was there any?
    // A call of its own: inlined into the sweep, where registers do not suffice, it takes 5% longer.
    #[inline(never)]
    pub(crate) fn match_row(set: &mut [u64], size: Size, a: usize) -> bool
        requires { RowOf size.parts size.roles a (length set.old) }
        ensures { MatchedRow size a set.old set.new result }
    {
        let mut moved = false;
        for r in 0..role_sets(size) {
            let run = Run::new(size, a, r);
            moved |= Matching { set, run }.match_all();
        }
        moved
    }
}
