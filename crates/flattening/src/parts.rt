// The parts of the flattened knowledge base, found in the order of the queue.
ghost use Rattle.std.specs.Prelude.{ℕ, ◌≡◌, ◌<◌, ◌≤◌, false, true, List, []};
ghost use Rattle.records.specs.Entries.{Entry};
ghost use Rattle.syntax.specs.Flatten.{atom, name_parts_lem};
ghost use Rattle.flattening.specs.Origins.{atom_found};
ghost use Rattle.flattening.specs.Trees.{nf_below, nf_of};
ghost use Rattle.flattening.specs.Adding.{AddsParts, Names, AddsAxiom, AddsAxioms, AddsTurn, MeetsAt, Flattens};

use crate::sharing::{first_alike, restricted_role};
use crate::trees::Tree;
use arrayvec::{ArrayVec, CapacityError};
use records::nodes::Node;
use records::table::Table;

// A filler that needs no fresh name.
#[derive(Clone, Copy, PartialEq, Eq)]
pub enum Atom {
    Everything,
    Nothing,
    Name(u8),
}

#[derive(Clone, Copy, PartialEq, Eq)]
pub enum Quantifier {
    Exists,
    Forall,
}

// The record of a restriction, whether that is read under an odd number of nots, and the record of its filler.
// `odd` is a truth value, as in the definitions and in the third byte that is listed.
#[derive(Clone, Copy, PartialEq, Eq)]
pub struct Source {
    pub number: u8,
    pub odd: bool,
    pub filler: u8,
}

// Where a part comes from: a name; a restriction's filler that needs a fresh name; or a restriction, with its filler where that
// needs none, else the next part is its filler.
#[derive(Clone, Copy, PartialEq, Eq)]
pub enum Origin {
    Name(u8),
    Fresh(Source),
    Restriction(Quantifier, Source, Option<Atom>),
}

// By hand, since a derive takes a variant without fields only.
impl Default for Origin {
    fn default() -> Self {
        Origin::Name(0)
    }
}

// There is no room for one part more: a list has as many as its caller asks for, since there is no heap.
// Not `CapacityError`, which hands back a part that nobody wants.
#[derive(Clone, Copy, PartialEq, Eq)]
pub struct TooMany;

impl From<CapacityError<Origin>> for TooMany {
    fn from(_full: CapacityError<Origin>) -> TooMany {
        TooMany
    }
}

// The normal form of a concept as a filler, put where the caller lends; none for one that needs a fresh name.
// Here and below two functions call each other, as document 01 asks. They take a tree's parts and a place for what they find, since a
// `Tree` and an `Option` would lie on the stack: so the last call is a jump, and deep trees take no stack.
#[cycle(negated_atom_into_plain_atom_into)]
fn plain_atom_into(table: &Table, number: u8, below: usize, found: &mut Option<Atom>)
    ensures { atom_found found.new ≡ atom (nf_below false table.now below number) }
{
    let tree = Tree {
        table,
        number,
        below,
    };
    let Some(node) = tree.node() else {
        *found = Some(Atom::Nothing);
        return;
    };
    *found = match node {
        Node::Everything => Some(Atom::Everything),
        Node::Name(t) => Some(Atom::Name(t)),
        Node::Not(a) => return negated_atom_into(table, a, usize::from(number), found),
        Node::And(_, _) | Node::Or(_, _) | Node::Exists(_, _) | Node::Forall(_, _) => None,
        _ => Some(Atom::Nothing),
    };
}

// The same under a not.
#[cycle(negated_atom_into_plain_atom_into)]
fn negated_atom_into(table: &Table, number: u8, below: usize, found: &mut Option<Atom>)
    ensures { atom_found found.new ≡ atom (nf_below true table.now below number) }
{
    let tree = Tree {
        table,
        number,
        below,
    };
    let Some(node) = tree.node() else {
        *found = Some(Atom::Everything);
        return;
    };
    *found = match node {
        Node::Everything => Some(Atom::Nothing),
        Node::Name(_) => None,
        Node::Not(a) => return plain_atom_into(table, a, usize::from(number), found),
        Node::And(_, _) | Node::Or(_, _) | Node::Exists(_, _) | Node::Forall(_, _) => None,
        _ => Some(Atom::Everything),
    };
}

// The normal form of a concept as a filler; none for one that needs a fresh name.
pub fn plain_atom(tree: Tree) -> Option<Atom>
    ensures { atom_found result ≡ atom (nf_of false tree.entry) }
{
    let mut found = None;
    plain_atom_into(tree.table, tree.number, tree.below, &mut found);
    found
}

// The same under a not.
pub fn negated_atom(tree: Tree) -> Option<Atom>
    ensures { atom_found result ≡ atom (nf_of true tree.entry) }
{
    let mut found = None;
    negated_atom_into(tree.table, tree.number, tree.below, &mut found);
    found
}

// A filler, read plainly or under a not.
// By a test: which of the two functions runs is a matter of the source, and document 01 asks for two.
fn filler_atom(tree: Tree, odd: bool) -> Option<Atom>
    ensures { atom_found result ≡ atom (nf_of odd tree.entry) }
{
    if odd {
        return negated_atom(tree);
    }
    plain_atom(tree)
}

// A restriction met: its part, and the next one for its filler where that needs a fresh name; no part where one alike is there.
// Tree or table and the list of parts are no struct: their one fact, the room, is in the list's type.
fn meet<const N: usize>(
    tree: Tree,
    odd: bool,
    quantifier: Quantifier,
    filler: u8,
    parts: &mut ArrayVec<Origin, N>,
) -> Result<(), TooMany>
    ensures { MeetsAt N tree.entry odd quantifier filler parts.old.items parts.new.items result }
{
    let source = Source {
        number: tree.number,
        odd,
        filler,
    };
    match filler_atom(tree.operand(filler), odd) {
        None => {
            parts.try_push(Origin::Restriction(quantifier, source, None))?;
            parts.try_push(Origin::Fresh(source))?;
            Ok(())
        }
        Some(atom) => {
            let role = restricted_role(tree.table, source);
            match first_alike(parts.as_slice(), quantifier, role, atom) {
                None => {
                    parts.try_push(Origin::Restriction(quantifier, source, Some(atom)))?;
                    Ok(())
                }
                Some(_) => Ok(()),
            }
        }
    }
}

// The parts of the normal form of a concept, from left to right.
#[cycle(negated_parts_plain_parts)]
fn plain_parts<const N: usize>(
    table: &Table,
    number: u8,
    below: usize,
    parts: &mut ArrayVec<Origin, N>,
) -> Result<(), TooMany>
    ensures { AddsParts N table.now (nf_below false table.now below number) parts.old.items parts.new.items result }
{
    let tree = Tree {
        table,
        number,
        below,
    };
    let Some(node) = tree.node() else {
        return Ok(());
    };
    match node {
        Node::Not(a) => negated_parts(table, a, usize::from(number), parts),
        Node::And(a, b) | Node::Or(a, b) => {
            plain_parts(table, a, usize::from(number), parts)?;
            plain_parts(table, b, usize::from(number), parts)
        }
        Node::Exists(_, filler) => meet(tree, false, Quantifier::Exists, filler, parts),
        Node::Forall(_, filler) => meet(tree, false, Quantifier::Forall, filler, parts),
        _ => Ok(()),
    }
}

// The same under a not.
#[cycle(negated_parts_plain_parts)]
fn negated_parts<const N: usize>(
    table: &Table,
    number: u8,
    below: usize,
    parts: &mut ArrayVec<Origin, N>,
) -> Result<(), TooMany>
    ensures { AddsParts N table.now (nf_below true table.now below number) parts.old.items parts.new.items result }
{
    let tree = Tree {
        table,
        number,
        below,
    };
    let Some(node) = tree.node() else {
        return Ok(());
    };
    match node {
        Node::Not(a) => plain_parts(table, a, usize::from(number), parts),
        Node::And(a, b) | Node::Or(a, b) => {
            negated_parts(table, a, usize::from(number), parts)?;
            negated_parts(table, b, usize::from(number), parts)
        }
        Node::Exists(_, filler) => meet(tree, true, Quantifier::Forall, filler, parts),
        Node::Forall(_, filler) => meet(tree, true, Quantifier::Exists, filler, parts),
        _ => Ok(()),
    }
}

// The parts of so many names.
fn name_parts<const N: usize>(names: usize) -> Result<ArrayVec<Origin, N>, TooMany>
    requires { N ≤ 255 }
    ensures { Names N names result }
{
    let mut parts: ArrayVec<Origin, N> = ArrayVec::new();
    for i in 0..names {
        parts.try_push(Origin::Name(i as u8))?;
    }
    Ok(parts)
}

// The parts of record i, if it is an axiom.
fn axiom_at<const N: usize>(
    table: &Table,
    i: u8,
    parts: &mut ArrayVec<Origin, N>,
) -> Result<(), TooMany>
    ensures { AddsAxiom N table.now i parts.old.items parts.new.items result }
{
    let Some(node) = table.node(i) else {
        return Ok(());
    };
    let Node::Axiom(left, right) = node else {
        return Ok(());
    };
    negated_parts(table, left, usize::from(i), parts)?;
    plain_parts(table, right, usize::from(i), parts)
}

// The parts of all axioms.
// By number, since an axiom's sides are read with the records below it.
fn axiom_parts<const N: usize>(
    table: &Table,
    parts: &mut ArrayVec<Origin, N>,
) -> Result<(), TooMany>
    ensures { AddsAxioms N table.now parts.old.items parts.new.items result }
{
    for i in 0..table.len() {
        axiom_at(table, i as u8, parts)?;
    }
    Ok(())
}

// The parts that a part gives when its turn comes: a fresh one those of its filler.
fn turn<const N: usize>(
    table: &Table,
    part: Origin,
    parts: &mut ArrayVec<Origin, N>,
) -> Result<(), TooMany>
    ensures { AddsTurn N table.now part parts.old.items parts.new.items result }
{
    let Origin::Fresh(source) = part else {
        return Ok(());
    };
    if source.odd {
        return negated_parts(table, source.filler, table.len(), parts);
    }
    plain_parts(table, source.filler, table.len(), parts)
}

// The parts of a knowledge base whose names are so many, or there are more than the caller has room for: then no more are looked at.
pub fn flatten<const N: usize>(table: &Table, names: usize) -> Result<ArrayVec<Origin, N>, TooMany>
    requires { N ≤ 255 }
    ensures { Flattens N table.now names result }
{
    let mut parts = name_parts(names)?;
    axiom_parts(table, &mut parts)?;
    // By index, since a turn makes the list longer.
    let mut j: usize = 0;
    while j < parts.len() {
        let part = parts[j];
        turn(table, part, &mut parts)?;
        j += 1;
    }
    Ok(parts)
}
