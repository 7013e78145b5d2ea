// Judging: the size of the initial set, the live labels, and the dominoes that these span.
ghost use Rattle.std.specs.Prelude.{◌≡◌, length};
ghost use Rattle.domino_conditions.specs.Tables.{view, Enough};
ghost use Rattle.domino_labels.specs.Live.{GoodLabels};
ghost use Rattle.domino_labels.specs.Judging.{met, JudgesSet, PutsCanon};

use crate::asking::Asked;
use crate::fitting::{Fitting, closed_both_ways};
use crate::live::{good_labels, thin_good};
use crate::writing::Writing;
use domino_conditions::numbers::words_for;
use domino_parts::tables::{FillerTables, PartTables};
use tbox::base::Base;

// The sizes of the initial and the canonical set.
#[derive(Clone, Copy, PartialEq, Eq)]
pub struct Judgement {
    pub opening: u64,
    pub survivors: u64,
}

impl Judgement {
    // Does the knowledge base have a model?
    pub fn is_met(self) -> bool
        ensures { result ≡ met self }
    {
        self.survivors != 0
    }
}

// Puts the canonical set into words without a member, from the good labels on.
fn judge_good(set: &mut [u64], base: &Base, live: &mut [u64; 64]) -> Judgement
    requires { Enough base.now (length set.old) × GoodLabels (view base.now) live.old }
    ensures { PutsCanon (view base.now) set.old set.new result }
{
    let parts = PartTables::of(base);
    let fillers = FillerTables::of(base);
    let asked = Asked::of(base);
    let fitting = Fitting {
        base,
        parts: &parts,
        fillers: &fillers,
        asked: &asked,
        closed: closed_both_ways(base),
    };
    let opening = fitting.opening();
    thin_good(live, &fitting);
    let survivors = Writing {
        set,
        fitting: &fitting,
        live,
    }
    .put_all();
    Judgement { opening, survivors }
}

// Leaves the canonical set. Where no label is good, all sets are empty, and no table is made.
pub fn judge_set(set: &mut [u64], base: &Base) -> Judgement
    requires { Enough base.now (length set.old) }
    ensures { JudgesSet (view base.now) set.old set.new result }
{
    bitset::runs::empty_words(set, words_for(base.size));
    let mut live = good_labels(base);
    if bitset::runs::whole_words_empty(&live, 0, bitset::words_for(base.size.parts) << 6) {
        return Judgement {
            opening: 0,
            survivors: 0,
        };
    }
    judge_good(set, base, &mut live)
}
