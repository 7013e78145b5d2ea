// The tests of the conditions: of a left label alone (1, 4, 5), of a role set alone (7), and of a domino (2, 3, 6).
ghost use Rattle.std.specs.Prelude.{◌≡◌, ◌*◌, ◌<◌, length};
ghost use Rattle.bitset.specs.Bits.{bit, look};
ghost use Rattle.domino_conditions.specs.Tables.{view, filler_in_label_lem, condition_number, Room};
ghost use Rattle.domino_conditions.specs.Polarity.{as_wanted_lem, right_fits_lem, wants, IsFillerOf, AskedOfRight, WantedOfRow};

use crate::numbers::{index, inverse, labels, left_of, right_of, role_sets, roles_of};
use flattening::parts::Quantifier;
use tbox::base::{Base, Filler, Kind, Part};

// The conditions by document 01's numbers, and 02's 7.
#[derive(Clone, Copy, PartialEq, Eq)]
pub enum Condition {
    Kb = 1,
    Ex = 2,
    Uni = 3,
    DelEx = 4,
    DelUni = 5,
    Sym = 6,
    Rbox = 7,
}

impl Condition {
    // A method and no `From`: a call says which number is meant.
    pub fn number(self) -> u8
        ensures { result ≡ condition_number self }
    {
        self as u8
    }
}

// k < 64 is asked of a number from `enumerate`: a type for it would be made at each step of three loops.
fn part_in_label(label: usize, k: usize) -> bool
    requires { k < 64 }
    ensures { result ≡ bit label k }
{
    (label >> k) % 2 == 1
}

pub fn filler_in_label(filler: Filler, label: usize) -> bool
    ensures { result ≡ filler_in_label_lem filler label }
{
    match filler {
        Filler::Everything => true,
        Filler::Nothing => false,
        Filler::Part(k) => k < 64 && part_in_label(label, usize::from(k)),
    }
}

// What an existential part wants in, a universal part wants out.
pub fn as_wanted(quantifier: Quantifier, x: bool) -> bool
    ensures { result ≡ as_wanted_lem (wants quantifier) x }
{
    match quantifier {
        Quantifier::Exists => x,
        Quantifier::Forall => !x,
    }
}

// Condition 1 of the left label a.
pub fn is_good(base: &Base, a: usize) -> bool
    requires { a < 4096 }
    ensures { result ≡ look base.now.good a }
{
    bitset::member(&base.good, a)
}

// Condition 7 of the role set r.
pub fn is_closed(base: &Base, r: usize) -> bool
    requires { r < 256 }
    ensures { result ≡ look base.now.closed r }
{
    bitset::member(&base.closed, r)
}

// The filler of a restriction with this quantifier.
fn filler_of(part: &Part, quantifier: Quantifier) -> Option<Filler>
    ensures { IsFillerOf part.now.kind quantifier result }
{
    match part.kind {
        Kind::Name | Kind::Fresh => None,
        Kind::Restriction(q, filler) => (q == quantifier).then_some(filler),
    }
}

// Quantifier and left label go side by side: a struct of the two has no fact of its own, and each call would build it to take it apart.
// What part k, with this quantifier, wants of the row a: a witness with its filler (Exists), or without it (Forall).
pub fn wanted_of_row(part: &Part, quantifier: Quantifier, a: usize, k: usize) -> Option<Filler>
    requires { k < 64 }
    ensures { WantedOfRow part.now quantifier a k result }
{
    let filler = filler_of(part, quantifier)?;
    as_wanted(quantifier, part_in_label(a, k)).then_some(filler)
}

// What part k, with this quantifier, asks of the right label of (a, r, _): its filler, to be out (Exists) or in (Forall).
pub fn asked_of_right(
    part: &Part,
    quantifier: Quantifier,
    a: usize,
    r: usize,
    k: usize,
) -> Option<Filler>
    requires { (k < 64) × (r < 256) }
    ensures { AskedOfRight part.now quantifier a r k result }
{
    let filler = filler_of(part, quantifier)?;
    if as_wanted(quantifier, part_in_label(a, k)) || !bitset::member(&part.role, r) {
        return None;
    }
    Some(filler)
}

// Conditions 2 (Exists) and 3 (Forall) of the domino (a, r, b): it breaks nothing that a part asks.
fn right_fits(base: &Base, quantifier: Quantifier, a: usize, r: usize, b: usize) -> bool
    requires { r < 256 }
    ensures { result ≡ right_fits_lem (view base.now) (wants quantifier) a r b }
{
    for (k, part) in base.parts.iter().enumerate() {
        if let Some(filler) = asked_of_right(part, quantifier, a, r, k) {
            if as_wanted(quantifier, filler_in_label(filler, b)) {
                return false;
            }
        }
    }
    true
}

// A domino set in lent words, and the knowledge base that it is tested on: there is room for each domino.
#[derive(Clone, Copy)]
pub struct DominoSet<'a> {
    pub set: &'a [u64],
    pub base: &'a Base,
    ghost room: { Room base.now (length set.now) },
}

impl DominoSet<'_> {
    ghost use Rattle.std.specs.Prelude.{◌≡◌, ◌&&◌, ◌/◌, ◌<◌, length};
    ghost use Rattle.bitset.specs.Bits.{look};
    ghost use Rattle.semantics.specs.Conditions.{defect, defect_at};
    ghost use Rattle.domino_conditions.specs.Tables.{filler_in_label_lem, defect_number};
    ghost use Rattle.domino_conditions.specs.Polarity.{as_wanted_lem, witnessed, wants, row_defect_lem};
    ghost use Rattle.domino_conditions.specs.Sets.{view_of, dominoes_of, IsLabel, IsNumber, IsDomino, found};

    // Is the domino n, with the right label b, in the set, and has b the filler, or lacks it, as is wanted?
    fn is_witness(&self, quantifier: Quantifier, filler: Filler, n: usize, b: usize) -> bool
        requires { n / 64 < length self.now.set.now }
        ensures { result ≡ (as_wanted_lem (wants quantifier) (filler_in_label_lem filler b) && look self.now.set.now n) }
    {
        as_wanted(quantifier, filler_in_label(filler, b)) && bitset::member(self.set, n)
    }

    // Has a part with this filler a witness in the row a? The two loops are left by a label at the first one, as document 01 asks.
    fn has_witness(&self, part: &Part, quantifier: Quantifier, filler: Filler, a: usize) -> bool
        requires { IsLabel self.now a }
        ensures { result ≡ found self.now part.now quantifier filler a }
    {
        let labels = labels(self.base.size);
        let mut found = false;
        'search: for r in 0..role_sets(self.base.size) {
            if bitset::member(&part.role, r) {
                let at = index(self.base.size, a, r, 0);
                for b in 0..labels {
                    if self.is_witness(quantifier, filler, at + b, b) {
                        found = true;
                        break 'search;
                    }
                }
            }
        }
        found
    }

    // Conditions 4 (Exists) and 5 (Forall) of the left label a: each part that wants a witness has one.
    // The left label is no field: a struct of set and label would be one more, for `has_witness` and its two callers alone.
    fn witnessed(&self, quantifier: Quantifier, a: usize) -> bool
        requires { IsLabel self.now a }
        ensures { result ≡ witnessed (view_of self.now) (wants quantifier) (dominoes_of self.now) a }
    {
        for (k, part) in self.base.parts.iter().enumerate() {
            if let Some(filler) = wanted_of_row(part, quantifier, a, k) {
                if !self.has_witness(part, quantifier, filler, a) {
                    return false;
                }
            }
        }
        true
    }

    // The first of the conditions 4 and 5 that the left label a fails.
    pub fn row_defect(&self, a: usize) -> Option<Condition>
        requires { IsLabel self.now a }
        ensures { defect_number result ≡ row_defect_lem (view_of self.now) (dominoes_of self.now) a }
    {
        if !self.witnessed(Quantifier::Exists, a) {
            return Some(Condition::DelEx);
        }
        if !self.witnessed(Quantifier::Forall, a) {
            return Some(Condition::DelUni);
        }
        None
    }

    // The first condition that the domino (a, r, b) fails.
    fn domino_defect(&self, a: usize, r: usize, b: usize) -> Option<Condition>
        requires { IsDomino self.now a r b }
        ensures { defect_number result ≡ defect (view_of self.now) (dominoes_of self.now) a r b }
    {
        if !is_good(self.base, a) {
            return Some(Condition::Kb);
        }
        if !right_fits(self.base, Quantifier::Exists, a, r, b) {
            return Some(Condition::Ex);
        }
        if !right_fits(self.base, Quantifier::Forall, a, r, b) {
            return Some(Condition::Uni);
        }
        if !is_closed(self.base, r) {
            return Some(Condition::Rbox);
        }
        let row = self.row_defect(a);
        let converse = index(self.base.size, b, inverse(self.base.size.roles, r), a);
        let sym = (!bitset::member(self.set, converse)).then_some(Condition::Sym);
        row.or(sym)
    }

    // The first condition that the domino n fails.
    pub fn defect(&self, n: usize) -> Option<Condition>
        requires { IsNumber self.now n }
        ensures { defect_number result ≡ defect_at (view_of self.now) (look self.now.set.now) n }
    {
        let a = left_of(self.base.size, n);
        let r = roles_of(self.base.size, n);
        let b = right_of(self.base.size, n);
        self.domino_defect(a, r, b)
    }
}
