// What a kind byte decides: the table of kinds.
ghost use Rattle.std.specs.Prelude.{◌≡◌};
ghost use Rattle.records.specs.Shapes.{shape_of, needs_restricted_lem};
ghost use Rattle.records.specs.Kinds.{shape_seen, shape_numbers};

#[derive(Clone, Copy, PartialEq, Eq)]
pub enum Sort {
    Concept,
    Role,
    Axiom,
}

// What a known kind decides.
#[derive(Clone, Copy)]
pub struct Shape {
    // The record's own sort.
    pub sort: Sort,
    // The number of bytes after the kind byte.
    pub body: u8,
    // The largest number that the body may have.
    pub largest: Option<u8>,
    // The sorts that the references must have.
    pub first: Option<Sort>,
    pub second: Option<Sort>,
}

impl Shape {
    // Whether its first reference must be to a restricted role: in an existential, a universal and a role inclusion.
    #[tactic(auto, unfolding(crate::specs::Shapes::needs_restricted_lem))]
    pub fn needs_restricted(self) -> bool
        ensures { result ≡ needs_restricted_lem (shape_seen self) }
    {
        self.sort != Sort::Role && self.first == Some(Sort::Role)
    }
}

// A row of the table: the sort, the length of the body, the largest number in it, and the sorts of the references.
fn row(
    sort: Sort,
    body: u8,
    largest: Option<u8>,
    first: Option<Sort>,
    second: Option<Sort>,
) -> Option<Shape>
    ensures { result ≡ Some (record { sort = sort; body = body; largest = largest; first = first; second = second }) }
{
    Some(Shape {
        sort,
        body,
        largest,
        first,
        second,
    })
}

// The table of kinds: the one match over kind bytes, with ranges, that document 01 asks for. An unknown kind has none.
#[tactic(auto, unfolding(crate::specs::Shapes::shape_of))]
pub fn shape_of(kind: u8) -> Option<Shape>
    ensures { shape_numbers result ≡ shape_of kind }
{
    const CONCEPT: Option<Sort> = Some(Sort::Concept);
    const ROLE: Option<Sort> = Some(Sort::Role);
    match kind {
        0x01..=0x02 => row(Sort::Concept, 0, None, None, None),
        0x03 => row(Sort::Concept, 1, Some(11), None, None),
        0x04 => row(Sort::Concept, 1, None, CONCEPT, None),
        0x05..=0x06 => row(Sort::Concept, 2, None, CONCEPT, CONCEPT),
        0x07..=0x08 => row(Sort::Concept, 2, None, ROLE, CONCEPT),
        0x10..=0x11 => row(Sort::Role, 1, Some(3), None, None),
        0x12 => row(Sort::Role, 1, None, ROLE, None),
        0x13..=0x14 => row(Sort::Role, 2, None, ROLE, ROLE),
        0x20 => row(Sort::Axiom, 2, None, CONCEPT, CONCEPT),
        0x21 => row(Sort::Axiom, 2, None, ROLE, ROLE),
        _ => None,
    }
}
