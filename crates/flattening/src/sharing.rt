// Restrictions written alike: which parts share.
ghost use Rattle.std.specs.Prelude.{◌≡◌, true};
ghost use Rattle.syntax.specs.Concepts.{role_below};
ghost use Rattle.syntax.specs.Flatten.{same_role_lem};
ghost use Rattle.flattening.specs.Origins.{role_of};
ghost use Rattle.flattening.specs.Trees.{role_at};
ghost use Rattle.flattening.specs.AlikeParts.{OneRecord, Outer, Told, FoundAlike};

use crate::parts::{Atom, Origin, Quantifier, Source};
use crate::trees::Tree;
use records::nodes::Node;
use records::table::Table;

// The outermost record of a role; role 0 as named stands where no role does, as in the definitions.
fn outer_role(tree: Tree) -> Node
    ensures { Outer tree.entry result }
{
    let Some(node) = tree.node() else {
        return Node::Role(0);
    };
    match node {
        Node::Role(_)
        | Node::Inverse(_)
        | Node::RoleNot(_)
        | Node::RoleAnd(_, _)
        | Node::RoleOr(_, _) => node,
        _ => Node::Role(0),
    }
}

// Whether two trees of one table are one record: then no tree is looked at.
// Not `==`: the two may be read with different records below them.
fn same_record(x: Tree, y: Tree) -> bool
    ensures { result ≡ true → OneRecord x.entry y.entry }
{
    x.number == y.number && usize::from(x.number) < x.below && usize::from(y.number) < y.below
}

// Whether two roles of one table are written alike: the same tree, whatever the records.
// Numbers and no `Tree`, which would be copied to the stack: so the last call is a jump, and a tree deep to the right takes no stack.
fn same_role(table: &Table, left: u8, left_below: usize, right: u8, right_below: usize) -> bool
    ensures { result ≡ same_role_lem (role_below table.now left_below left) (role_below table.now right_below right) }
{
    let x = Tree {
        table,
        number: left,
        below: left_below,
    };
    let y = Tree {
        table,
        number: right,
        below: right_below,
    };
    if same_record(x, y) {
        return true;
    }
    let (i, j) = (usize::from(left), usize::from(right));
    match (outer_role(x), outer_role(y)) {
        (Node::Role(a), Node::Role(b)) => a == b,
        (Node::Inverse(a), Node::Inverse(b)) => a == b,
        (Node::RoleNot(a), Node::RoleNot(b)) => same_role(table, a, i, b, j),
        // Two arms, since the roles of two kinds are never alike.
        (Node::RoleAnd(a, c), Node::RoleAnd(b, d)) => {
            same_role(table, a, i, b, j) && same_role(table, c, i, d, j)
        }
        (Node::RoleOr(a, c), Node::RoleOr(b, d)) => {
            same_role(table, a, i, b, j) && same_role(table, c, i, d, j)
        }
        _ => false,
    }
}

// The role of a restriction: the first that its record names.
// Record 0 where there is none, as in the definitions; in a table that was read there is one.
pub fn restricted_role<'a>(table: &'a Table, source: Source) -> Tree<'a>
    ensures { (result.table.now ≡ table.now) × (role_at result ≡ role_of table.now source) }
{
    Tree {
        table,
        number: table.node(source.number).map_or(0, |node| node.first()),
        below: usize::from(source.number),
    }
}

// Whether a part is the restriction with this role and filler.
// Quantifier, role and filler are no struct: no fact ties them, and each call would build it to take it apart.
fn is_alike(part: Origin, quantifier: Quantifier, role: Tree, filler: Atom) -> bool
    ensures { Told role.entry.table.now part quantifier (role_at role.entry) filler result }
{
    match part {
        Origin::Name(_) | Origin::Fresh(_) => false,
        Origin::Restriction(kind, source, atom) => {
            kind == quantifier
                && atom == Some(filler)
                && {
                    let other = restricted_role(role.table, source);
                    same_role(
                        role.table,
                        role.number,
                        role.below,
                        other.number,
                        other.below,
                    )
                }
        }
    }
}

// The place of the first part that is the restriction with this role and filler.
pub fn first_alike(
    parts: &[Origin],
    quantifier: Quantifier,
    role: Tree,
    filler: Atom,
) -> Option<usize>
    ensures { FoundAlike role.entry.table.now parts.now quantifier (role_at role.entry) filler result }
{
    parts
        .iter()
        .position(|part| is_alike(*part, quantifier, role, filler))
}
