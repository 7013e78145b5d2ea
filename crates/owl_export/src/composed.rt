// What the text has no form for: a role with not, and, or in an axiom, and a role inclusion.
ghost use Rattle.std.specs.Prelude.{◌≡◌};
ghost use Rattle.owl_export.specs.AxiomText.{composed, has_composed};
ghost use Rattle.flattening.specs.Trees.{role_at};
ghost use Rattle.owl_export.specs.RecordText.{makes_role, concept_of, calls_at, FirstBeyond};

use flattening::trees::Tree;
use records::nodes::Node;
use records::table::Table;

#[tactic(auto, unfolding(crate::specs::RecordText::makes_role))]
fn makes_role(node: Node) -> bool
    ensures { result ≡ makes_role node }
{
    matches!(
        node,
        Node::RoleNot(_) | Node::RoleAnd(_, _) | Node::RoleOr(_, _)
    )
}

pub(crate) fn is_composed(tree: Tree) -> bool
    ensures { result ≡ composed (role_at tree.entry) }
{
    let Some(node) = tree.node() else {
        return false;
    };
    makes_role(node)
}

fn has_composed(tree: Tree) -> bool
    ensures { result ≡ has_composed (concept_of tree.entry) }
{
    let Some(node) = tree.node() else {
        return false;
    };
    match node {
        Node::Not(a) => has_composed(tree.operand(a)),
        Node::And(a, b) | Node::Or(a, b) => has_composed(tree.operand(a))
            || has_composed(tree.operand(b)),
        Node::Exists(u, a) | Node::Forall(u, a) => is_composed(tree.operand(u))
            || has_composed(tree.operand(a)),
        _ => false,
    }
}

// Does record i call for refusal 20? An axiom does, by what it reaches, and each role inclusion.
fn calls_for_20(table: &Table, i: u8) -> bool
    ensures { result ≡ calls_at table.now i }
{
    let Some(node) = table.node(i) else {
        return false;
    };
    match node {
        Node::RoleInclusion(_, _) => true,
        Node::Axiom(left, right) => {
            let axiom = Tree {
                table,
                number: i,
                below: table.len(),
            };
            has_composed(axiom.operand(left)) || has_composed(axiom.operand(right))
        }
        _ => false,
    }
}

// The byte where the first record that calls for refusal 20 starts.
// By number, since an axiom is read as a `Tree`, which takes a record's number.
pub(crate) fn first_beyond_text(table: &Table) -> Option<usize>
    ensures { FirstBeyond table.now result }
{
    let mut at = 0;
    for i in 0..table.len() {
        let Some(node) = table.node(i as u8) else {
            unreachable!();
        };
        if calls_for_20(table, i as u8) {
            return Some(at);
        }
        at += 1 + node.body();
    }
    None
}
