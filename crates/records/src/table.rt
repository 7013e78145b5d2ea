// The table of records: no heap, so with room for the 255 that a sheet may have.
ghost use Rattle.std.specs.Prelude.{◌≡◌, ◌==◌, ◌≤◌, ◌<◌, [], ◌∷◌, ◌++◌, length};
ghost use Rattle.records.specs.Scan.{record_at_lem, name, vacuous_of_lem};
ghost use Rattle.records.specs.Kinds.{wanted_no};
ghost use Rattle.records.specs.Nodes.{node_kind, node_first, node_second, entry_of, NodeAt, RecordAt};

use crate::nodes::{Node, Record};
use crate::shapes::Sort;
use arrayvec::ArrayVec;
use std::marker::Model;

#[derive(Drop)]
pub struct Table {
    records: ArrayVec<Record, 255>,
}

impl Model for Table {
    ghost use Rattle.std.specs.Prelude.{◌≤◌, List, length, map};
    ghost use Rattle.records.specs.Entries.{Entry};
    ghost use Rattle.records.specs.Nodes.{entry_of};

    ghost Value = { List Entry };

    ghost view = { λ t. map entry_of t.records.items };

    ghost invariant = { λ t. length t.records.items ≤ 255 };
}

impl Table {
    pub fn new() -> Self
        ensures { result ≡ [] }
    {
        Table {
            records: ArrayVec::new(),
        }
    }

    // How many records there are.
    pub fn len(&self) -> usize
        ensures value { result ≡ length self.now }
        ensures fits { result ≤ 255 }
    {
        self.records.len()
    }

    // Whether there is no room for one more.
    pub(crate) fn is_full(&self) -> bool
        ensures { result ≡ (length self.now == 255) }
    {
        self.records.is_full()
    }

    // Record r, if it is there.
    pub(crate) fn record(&self, r: u8) -> Option<Record>
        ensures { RecordAt self.now r result }
    {
        self.records.get(usize::from(r)).copied()
    }

    // What record r says, if it is there.
    #[tactic(auto, unfolding(crate::specs::Nodes::entry_of))]
    pub fn node(&self, r: u8) -> Option<Node>
        ensures { NodeAt self.now r result }
    {
        self.record(r).map(|record| record.node)
    }

    // Whether record r is a role that holds on the empty role set.
    #[tactic(auto, unfolding(crate::specs::Nodes::entry_of))]
    pub(crate) fn is_vacuous(&self, r: u8) -> bool
        ensures { result ≡ (record_at_lem self.now r).vacuous }
    {
        self.record(r).is_some_and(|record| record.vacuous)
    }

    // Whether a node over these records is such a role.
    #[tactic(auto, unfolding(crate::specs::Scan::vacuous_of_lem))]
    pub(crate) fn vacuous_of(&self, node: Node) -> bool
        ensures { result ≡ vacuous_of_lem self.now (node_kind node) (node_first node) (node_second node) }
    {
        match node {
            Node::RoleNot(a) => !self.is_vacuous(a),
            Node::RoleAnd(a, b) => self.is_vacuous(a) && self.is_vacuous(b),
            Node::RoleOr(a, b) => self.is_vacuous(a) || self.is_vacuous(b),
            _ => false,
        }
    }

    pub(crate) fn clear(&mut self)
        ensures { self.new ≡ [] }
    {
        self.records.clear();
    }

    pub(crate) fn push(&mut self, next: Record)
        requires { length self.old < 255 }
        ensures { self.new ≡ self.old ++ (entry_of next ∷ []) }
    {
        self.records.push(next);
    }

    // Notes that record r is named, where a sort says that there is a reference to it.
    pub(crate) fn name(&mut self, wanted: Option<Sort>, r: u8)
        ensures { self.new ≡ name self.old (wanted_no wanted) r }
    {
        if wanted.is_none() {
            return;
        }
        // By index, since `get_mut` promises nothing of what the slice ends as.
        let i = usize::from(r);
        if i < self.records.len() {
            self.records[i].named = true;
        }
    }
}
