// The search for a live label's witnesses among the dominoes that the live labels span.
ghost use Rattle.std.specs.Prelude.{ℕ, ◌≡◌, ◌<◌};
ghost use Rattle.domino_initial.specs.RightMasks.{allows};
ghost use Rattle.domino_conditions.specs.Tables.{filler_in_label_lem};
ghost use Rattle.domino_conditions.specs.Polarity.{wants, as_wanted_lem};
ghost use Rattle.domino_labels.specs.Live.{any_live_lem};

use crate::asking::demand;
use crate::fitting::Row;
use domino_conditions::conditions::wanted_of_row;
use domino_conditions::numbers::role_sets;
use domino_initial::masks::RightMask;
use flattening::parts::Quantifier;
use tbox::base::{Filler, Part};

// The labels that a part with this filler wants of a witness: with the filler (Exists), or without it (Forall).
fn sought(filler: Filler, quantifier: Quantifier) -> RightMask
    ensures { (b : ℕ) → b < 4096 → allows result b ≡ as_wanted_lem (wants quantifier) (filler_in_label_lem filler b) }
{
    match quantifier {
        Quantifier::Exists => demand(filler, Quantifier::Forall),
        Quantifier::Forall => demand(filler, Quantifier::Exists),
    }
}

// Of the labels of word w, is one live and allowed? By a mask's low word, and what it asks of the bits above.
#[tactic(auto, unfolding(crate::specs::Live::any_live_lem))]
fn any_live(live: &[u64; 64], low: u64, above: RightMask, w: usize) -> bool
    requires { w < 64 }
    ensures { result ≡ any_live_lem live.now low above w }
{
    above.allows(w) && live[w] & low != 0
}

impl Row<'_> {
    ghost use Rattle.std.specs.Prelude.{◌≡◌, ◌&&◌, ◌<◌};
    ghost use Rattle.bitset.specs.Bits.{look};
    ghost use Rattle.labels.specs.Labels.{spanned, supported};
    ghost use Rattle.domino_conditions.specs.Tables.{role_holds_on_lem};
    ghost use Rattle.domino_conditions.specs.Polarity.{wants, witnessed};
    ghost use Rattle.domino_labels.specs.Fittings.{row_view, RoleSet};
    ghost use Rattle.domino_labels.specs.Searches.{Lives, found};

    // Are there dominoes of the row with the role set r that have their converse, and does the part's role hold on it?
    fn may_serve(&self, part: &Part, r: usize) -> bool
        requires { RoleSet self.now r }
        ensures { result ≡ (role_holds_on_lem part.now r && look self.now.fitting.now.closed r) }
    {
        bitset::member(&part.role, r) && self.fitting.pairs(r)
    }

    // Has a part with this filler a witness? The two loops are left by a label at the first one, as document 01 asks; the right
    // labels are tried a word at a time.
    fn has_witness(
        &self,
        live: &[u64; 64],
        part: &Part,
        quantifier: Quantifier,
        filler: Filler,
    ) -> bool
        requires { Lives self.now live.now }
        ensures { result ≡ found self.now live.now part.now quantifier filler }
    {
        let size = self.fitting.base.size;
        let wanted = sought(filler, quantifier);
        // No label has nothing, and none lacks everything.
        if wanted.have >= 4096 {
            return false;
        }
        let words = bitset::words_for(size.parts);
        let mut found = false;
        'search: for r in 0..role_sets(size) {
            if self.may_serve(part, r) {
                let mask = self.fitting_both(r).and(wanted);
                let low = mask.low_word();
                let above = mask.high();
                for w in 0..words {
                    if any_live(live, low, above, w) {
                        found = true;
                        break 'search;
                    }
                }
            }
        }
        found
    }

    // Conditions 4 (Exists) and 5 (Forall): each part that wants a witness has one.
    fn witnessed(&self, live: &[u64; 64], quantifier: Quantifier) -> bool
        requires { Lives self.now live.now }
        ensures { result ≡ witnessed (row_view self.now) (wants quantifier) (spanned (row_view self.now) (look live.now)) self.now.label }
    {
        for (k, part) in self.fitting.base.parts.iter().enumerate() {
            if let Some(filler) = wanted_of_row(part, quantifier, self.label, k) {
                if !self.has_witness(live, part, quantifier, filler) {
                    return false;
                }
            }
        }
        true
    }

    // Both conditions.
    pub(crate) fn is_supported(&self, live: &[u64; 64]) -> bool
        requires { Lives self.now live.now }
        ensures { result ≡ supported (row_view self.now) (look live.now) self.now.label }
    {
        self.witnessed(live, Quantifier::Exists) && self.witnessed(live, Quantifier::Forall)
    }
}
