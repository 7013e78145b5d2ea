// Which right labels fit a left label and a role set, one way and both ways: masks, made from tables.
ghost use Rattle.std.specs.Prelude.{◌≡◌, ◌^◌, ◌<◌};
ghost use Rattle.domino_conditions.specs.Tables.{view};
ghost use Rattle.domino_parts.specs.PartTables.{PartTablesOf};
ghost use Rattle.domino_parts.specs.FillerTables.{FillersOf};
ghost use Rattle.domino_labels.specs.Asking.{AskedOf};
ghost use Rattle.domino_labels.specs.Rows.{ClosedBothWays, RowWords};

use crate::asking::Asked;
use domino_conditions::conditions::is_closed;
use domino_conditions::numbers::{inverse, role_sets};
use domino_initial::masks::RightMask;
use domino_parts::tables::{FillerTables, PartTables};
use tbox::base::Base;

// The role sets that are closed and whose inverses are: of the others no domino has its converse.
pub(crate) fn closed_both_ways(base: &Base) -> [u64; 4]
    ensures { ClosedBothWays (view base.now) result }
{
    let mut closed = base.closed;
    for r in 0..role_sets(base.size) {
        if !is_closed(base, inverse(base.size.roles, r)) {
            bitset::clear(&mut closed, r);
        }
    }
    closed
}

// A knowledge base, and tables of what its parts ask: lent, since a copy of them takes a small sheet's time.
#[derive(Clone, Copy)]
pub struct Fitting<'a> {
    pub base: &'a Base,
    pub parts: &'a PartTables,
    pub fillers: &'a FillerTables,
    pub asked: &'a Asked,
    pub closed: [u64; 4],
    ghost tables: { PartTablesOf (view base.now) parts.now },
    ghost filled: { FillersOf (view base.now) fillers.now },
    ghost asks: { AskedOf (view base.now) asked.now },
    ghost both: { ClosedBothWays (view base.now) closed },
}

impl<'a> Fitting<'a> {
    ghost use Rattle.std.specs.Prelude.{◌≡◌, ◌*◌, ◌^◌, ◌<◌};
    ghost use Rattle.bitset.specs.Bits.{look};
    ghost use Rattle.domino_conditions.specs.Tables.{view};
    ghost use Rattle.domino_parts.specs.PartWords.{on_role_set};
    ghost use Rattle.domino_labels.specs.Rows.{IsAsking};
    ghost use Rattle.domino_labels.specs.Fittings.{view_of, IsRow};

    // The parts whose role holds on the role set r.
    pub(crate) fn parts_on(&self, r: usize) -> usize
        requires { r < 2 ^ (2 * self.now.base.now.size.roles) }
        ensures { result ≡ on_role_set (view_of self.now) r }
    {
        usize::from(self.parts.holds[r])
    }

    // Of no role set that is not closed both ways has a domino its converse.
    pub(crate) fn pairs(&self, r: usize) -> bool
        requires { r < 256 }
        ensures { result ≡ look self.now.closed r }
    {
        bitset::member(&self.closed, r)
    }

    // The parts that ask something of the right labels of a left label, where their roles hold.
    pub(crate) fn asks(&self, label: usize) -> usize
        requires { label < 2 ^ self.now.base.now.size.parts }
        ensures { IsAsking (view_of self.now) label result }
    {
        let existentials = usize::from(self.parts.existentials);
        let universals = usize::from(self.parts.universals);
        (existentials & !label) | (universals & label)
    }

    // The row of a left label.
    pub(crate) fn row(&'a self, label: usize) -> Row<'a>
        requires { label < 2 ^ self.now.base.now.size.parts }
        ensures { IsRow self.now label result }
    {
        let filled = usize::from(self.fillers.filled(label));
        Row {
            fitting: self,
            label,
            asks: self.asks(label),
            have: usize::from(self.parts.existentials) & filled,
            lack: usize::from(self.parts.universals) & !filled,
        }
    }
}

// The row of a left label: the parts that ask something of its right labels where their roles hold, and the parts that, where
// their roles hold on its converse, are to be in the right label and out of it.
#[derive(Clone, Copy)]
pub struct Row<'a> {
    pub fitting: &'a Fitting<'a>,
    pub label: usize,
    pub asks: usize,
    pub have: usize,
    pub lack: usize,
    ghost words: { RowWords (view fitting.now.base.now) label asks have lack },
}

impl Row<'_> {
    ghost use Rattle.std.specs.Prelude.{◌≡◌, ◌*◌, ◌^◌, ◌<◌, true};
    ghost use Rattle.bitset.specs.Bits.{look};
    ghost use Rattle.labels.specs.Labels.{fits_both};
    ghost use Rattle.domino_labels.specs.Rows.{Picks};
    ghost use Rattle.domino_labels.specs.Fittings.{row_view, RoleSet};

    // The right labels with which (label, r, _) and its converse meet the conditions 2 and 3, where the role set is closed both ways.
    pub(crate) fn fitting_both(&self, r: usize) -> RightMask
        requires { RoleSet self.now r × (look self.now.fitting.now.closed r ≡ true) }
        ensures { Picks (row_view self.now) (fits_both (row_view self.now) self.now.label r) result }
    {
        let fitting = self.fitting;
        let back = fitting.parts_on(inverse(fitting.base.size.roles, r));
        let converse = RightMask {
            have: self.have & back,
            lack: self.lack & back,
        };
        fitting
            .asked
            .by(self.asks & fitting.parts_on(r))
            .and(converse)
    }
}
