// Where each restriction stands among the parts.
ghost use Rattle.std.specs.Prelude.{◌≡◌, ◌≤◌, length};
ghost use Rattle.flattening.specs.Origins.{atom_found, parts_in};
ghost use Rattle.flattening.specs.Trees.{role_at};
ghost use Rattle.tbox.specs.RestrictionPlaces.{PlacedFor, PairFor, PlaceAt, PlacesOf, pair_at};

use flattening::parts::{Atom, Origin, Quantifier, negated_atom, plain_atom};
use flattening::sharing::first_alike;
use flattening::trees::Tree;
use records::nodes::Node;
use records::table::Table;

// The places of a restriction, read plainly and under a not; none if the filler needs a fresh name.
#[derive(Clone, Copy, Default)]
pub(crate) struct Pair {
    pub(crate) plain: Option<u8>,
    pub(crate) negated: Option<u8>,
}

// The parts of a knowledge base: few, so that a byte holds a part's number.
#[derive(Clone, Copy)]
struct Parts<'a> {
    origins: &'a [Origin],
    ghost few: { length origins.now ≤ 20 },
}

impl<'a> Parts<'a> {
    // The part that a restriction with the given role and filler is.
    fn place(self, quantifier: Quantifier, role: Tree, filler: Option<Atom>) -> Option<u8>
        ensures { PlacedFor (parts_in role.entry.table.now self.entry.origins.now) quantifier (role_at role.entry) (atom_found filler) result }
    {
        let j = first_alike(self.origins, quantifier, role, filler?)?;
        Some(j as u8)
    }

    // The places of the restriction that has one quantifier plainly, and the other under a not.
    fn of_restriction(
        self,
        plain: Quantifier,
        negated: Quantifier,
        role: Tree,
        filler: Tree,
    ) -> Pair
        ensures { PairFor (parts_in role.entry.table.now self.entry.origins.now) plain negated (role_at role.entry) filler.entry result }
    {
        Pair {
            plain: self.place(plain, role, plain_atom(filler)),
            negated: self.place(negated, role, negated_atom(filler)),
        }
    }

    // The places of a record, if that is a restriction.
    fn of_record(self, table: &Table, number: u8) -> Pair
        ensures { PlaceAt table.now (parts_in table.now self.entry.origins.now) number result }
    {
        let tree = Tree {
            table,
            number,
            below: 256,
        };
        match tree.node() {
            Some(Node::Exists(a, b)) => {
                self.of_restriction(
                    Quantifier::Exists,
                    Quantifier::Forall,
                    tree.operand(a),
                    tree.operand(b),
                )
            }
            Some(Node::Forall(a, b)) => {
                self.of_restriction(
                    Quantifier::Forall,
                    Quantifier::Exists,
                    tree.operand(a),
                    tree.operand(b),
                )
            }
            _ => Pair::default(),
        }
    }
}

// The places of all records, by their numbers.
// 256 pairs, so that a record's number, a byte, always has one; there is no heap.
#[derive(Drop)]
pub(crate) struct Places {
    pairs: [Pair; 256],
}

impl Places {
    pub(crate) fn of(table: &Table, parts: &[Origin]) -> Places
        requires { length parts.now ≤ 20 }
        ensures { PlacesOf table.now (parts_in table.now parts.now) result }
    {
        let known = Parts { origins: parts };
        let mut pairs = [Pair::default(); 256];
        for (r, pair) in pairs[..table.len()].iter_mut().enumerate() {
            *pair = known.of_record(table, r as u8);
        }
        Places { pairs }
    }

    pub(crate) fn pair(&self, number: u8) -> Pair
        ensures { result ≡ pair_at self.now.pairs number }
    {
        self.pairs[usize::from(number)]
    }
}
