// Role inclusions on role sets, 64 at a time.
ghost use Rattle.std.specs.Prelude.{◌≡◌, [], ◌∷◌};
ghost use Rattle.bitset.specs.Bits.{word_at};
ghost use Rattle.syntax.specs.Concepts.{nodes_of, inclusions_of};
ghost use Rattle.syntax.specs.Truth.{rbox_on};
ghost use Rattle.tbox.specs.ClosedRoleSets.{inclusion_made, inclusion_in, ClosedOf, Closes};

use crate::truth::role_word;
use flattening::trees::Tree;
use records::nodes::Node;
use records::table::Table;

// Word w of the role sets on which the inclusion of one role in another holds.
fn inclusion_word(left: Tree, right: Tree, w: u64) -> u64
    ensures { result ≡ word_at (rbox_on (inclusion_made left.entry right.entry ∷ [])) w }
{
    let x = role_word(left.table, left.number, left.below, w);
    let y = role_word(right.table, right.number, right.below, w);
    bitset::join(bitset::complement(x), y)
}

// Takes out of some role sets those on which record i, if it is a role inclusion, fails.
fn meet_inclusion(table: &Table, i: u8, sets: &mut [u64; 4])
    ensures { Closes (inclusion_in table.now i) sets.old sets.new }
{
    let Some(Node::RoleInclusion(left, right)) = table.node(i) else {
        return;
    };
    let inclusion = Tree {
        table,
        number: i,
        below: table.len(),
    };
    let (left, right) = (inclusion.operand(left), inclusion.operand(right));
    for (w, word) in sets.iter_mut().enumerate() {
        *word = bitset::meet(*word, inclusion_word(left, right, w as u64));
    }
}

// The role sets that are closed.
// By number, since a role inclusion is read as a `Tree`, which takes a record's number.
pub(crate) fn closed_words(table: &Table) -> [u64; 4]
    ensures { ClosedOf (inclusions_of (nodes_of table.now)) result }
{
    let mut closed = [u64::MAX; 4];
    for i in 0..table.len() {
        meet_inclusion(table, i as u8, &mut closed);
    }
    closed
}
