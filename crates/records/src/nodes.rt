// What a record says, and what reading it found out.

ghost use Rattle.std.specs.Prelude.{◌≡◌};
ghost use Rattle.records.specs.Shapes.{shape_of, is_leaf_lem};
ghost use Rattle.records.specs.Kinds.{sort_no};
ghost use Rattle.records.specs.Nodes.{node_kind, node_first, NodeOf};

use crate::shapes::Sort;

// A record's kind, with the number or the references of its body.
#[derive(Clone, Copy, PartialEq, Eq, Default)]
pub enum Node {
    #[default]
    Everything,
    Nothing,
    Name(u8),
    Not(u8),
    And(u8, u8),
    Or(u8, u8),
    Exists(u8, u8),
    Forall(u8, u8),
    Role(u8),
    Inverse(u8),
    RoleNot(u8),
    RoleAnd(u8, u8),
    RoleOr(u8, u8),
    Axiom(u8, u8),
    RoleInclusion(u8, u8),
}

// A record: its node, whether a later record names it, and whether it is a role that holds on the empty role set.
#[derive(Clone, Copy, PartialEq, Eq, Default)]
pub struct Record {
    pub node: Node,
    pub named: bool,
    pub vacuous: bool,
}

impl Node {
    #[tactic(auto, unfolding(crate::specs::Shapes::shape_of))]
    pub fn sort(self) -> Sort
        ensures { sort_no result ≡ (shape_of (node_kind self)).sort }
    {
        match self {
            Node::Everything | Node::Nothing | Node::Name(_) | Node::Not(_) => Sort::Concept,
            Node::And(_, _) | Node::Or(_, _) | Node::Exists(_, _) | Node::Forall(_, _) =>
                Sort::Concept,
            Node::Role(_) | Node::Inverse(_) | Node::RoleNot(_) => Sort::Role,
            Node::RoleAnd(_, _) | Node::RoleOr(_, _) => Sort::Role,
            Node::Axiom(_, _) | Node::RoleInclusion(_, _) => Sort::Axiom,
        }
    }

    // Has no references, and may be named often.
    #[tactic(auto, unfolding(crate::specs::Shapes::shape_of, crate::specs::Shapes::is_leaf_lem))]
    pub fn is_leaf(self) -> bool
        ensures { result ≡ is_leaf_lem (shape_of (node_kind self)) }
    {
        matches!(
            self,
            Node::Everything | Node::Nothing | Node::Name(_) | Node::Role(_) | Node::Inverse(_)
        )
    }

    // How many bytes the record has after its kind byte.
    #[tactic(auto, unfolding(crate::specs::Shapes::shape_of))]
    pub fn body(self) -> usize
        ensures { result ≡ (shape_of (node_kind self)).body }
    {
        match self {
            Node::Everything | Node::Nothing => 0,
            Node::Name(_) | Node::Not(_) | Node::Role(_) | Node::Inverse(_) | Node::RoleNot(_) => 1,
            Node::And(_, _) | Node::Or(_, _) | Node::Exists(_, _) | Node::Forall(_, _) => 2,
            Node::RoleAnd(_, _) | Node::RoleOr(_, _) => 2,
            Node::Axiom(_, _) | Node::RoleInclusion(_, _) => 2,
        }
    }

    // The first number of the record's body, 0 where it has none.
    // 0 and no `None`, as in the definitions' entries.
    pub fn first(self) -> u8
        ensures { result ≡ node_first self }
    {
        match self {
            Node::Everything | Node::Nothing => 0,
            Node::Name(a)
            | Node::Not(a)
            | Node::And(a, _)
            | Node::Or(a, _)
            | Node::Exists(a, _)
            | Node::Forall(a, _)
            | Node::Role(a)
            | Node::Inverse(a)
            | Node::RoleNot(a)
            | Node::RoleAnd(a, _)
            | Node::RoleOr(a, _)
            | Node::Axiom(a, _)
            | Node::RoleInclusion(a, _) => a,
        }
    }
}

// The node of a kind with the two bytes of its body; none of an unknown kind.
// A second match over kinds: a shape is wanted before the body is read, a node after it was tested.
#[tactic(auto, unfolding(crate::specs::Shapes::shape_of))]
pub fn node_of(kind: u8, a: u8, b: u8) -> Option<Node>
    ensures { NodeOf kind a b result }
{
    let node = match kind {
        0x01 => Node::Everything,
        0x02 => Node::Nothing,
        0x03 => Node::Name(a),
        0x04 => Node::Not(a),
        0x05 => Node::And(a, b),
        0x06 => Node::Or(a, b),
        0x07 => Node::Exists(a, b),
        0x08 => Node::Forall(a, b),
        0x10 => Node::Role(a),
        0x11 => Node::Inverse(a),
        0x12 => Node::RoleNot(a),
        0x13 => Node::RoleAnd(a, b),
        0x14 => Node::RoleOr(a, b),
        0x20 => Node::Axiom(a, b),
        0x21 => Node::RoleInclusion(a, b),
        _ => return None,
    };
    Some(node)
}
