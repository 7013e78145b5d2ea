// Live labels: those that lack a witness go, until none does.
ghost use Rattle.std.specs.Prelude.{◌*◌, ◌^◌, ltb};
ghost use Rattle.elimination.specs.Sets.{Same};
ghost use Rattle.bitset.specs.Bits.{look, words_for_lem};
ghost use Rattle.bitset.specs.Runs.{Kept};
ghost use Rattle.semantics.specs.Conditions.{dominoes, canon};
ghost use Rattle.labels.specs.Labels.{spanned_set};
ghost use Rattle.domino_conditions.specs.Tables.{view};
ghost use Rattle.domino_labels.specs.Live.{Inside, GoodLabels};
ghost use Rattle.domino_labels.specs.Fittings.{view_of};

use crate::fitting::Fitting;
use domino_conditions::numbers::labels;
use tbox::base::{Base, Size};

// Labels in 64 words, that go: of a knowledge base, in the words that hold its labels.
#[derive(Drop)]
pub struct Thinning<'a> {
    pub live: &'a mut [u64; 64],
    pub fitting: &'a Fitting<'a>,
    ghost inside: { Inside (view fitting.now.base.now) live.now },
}

impl Thinning<'_> {
    ghost use Rattle.std.specs.Prelude.{◌^◌, ◌<◌};
    ghost use Rattle.domino_labels.specs.Thinnings.{ThinnedLabel, ThinnedOnce, ThinnedAll};

    // The label a goes if it lacks a witness. Did it?
    fn thin_label(&mut self, a: usize) -> bool
        requires { a < 2 ^ self.old.fitting.now.base.now.size.parts }
        ensures { ThinnedLabel a self.old self.new result }
    {
        let fitting = self.fitting;
        let live = &mut *self.live;
        if !bitset::member(live, a) || fitting.row(a).is_supported(live) {
            return false;
        }
        bitset::clear(live, a);
        true
    }

    // One sweep over all labels. Did any go?
    fn thin(&mut self) -> bool
        ensures { ThinnedOnce self.old self.new result }
    {
        let mut moved = false;
        for a in 0..labels(self.fitting.base.size) {
            moved |= self.thin_label(a);
        }
        moved
    }

    // Sweeps until none goes.
    fn thin_all(&mut self)
        ensures { ThinnedAll self.old self.new }
    {
        while self.thin() {}
    }
}

// The labels among the numbers in 64 words.
// Lent as an array, whose length is known: behind the reference of a base it is not.
#[tactic(auto, using(bitset::proofs::RunLaws::trim_words))]
fn trimmed(words: &[u64; 64], size: Size) -> [u64; 64]
    ensures { Kept (λ n. ltb n (2 ^ size.parts)) 0 (64 * words_for_lem (2 ^ size.parts)) words.now result }
{
    let mut labels = *words;
    bitset::runs::trim(&mut labels, size.parts);
    labels
}

// The good labels.
pub(crate) fn good_labels(base: &Base) -> [u64; 64]
    ensures { GoodLabels (view base.now) result }
{
    trimmed(&base.good, base.size)
}

// Leaves of the good labels those that span the canonical set.
pub(crate) fn thin_good(live: &mut [u64; 64], fitting: &Fitting)
    requires { GoodLabels (view_of fitting.now) live.old }
    ensures { Same (dominoes (view_of fitting.now)) (spanned_set (view_of fitting.now) (look live.new)) (canon (view_of fitting.now)) }
{
    Thinning { live, fitting }.thin_all();
}
