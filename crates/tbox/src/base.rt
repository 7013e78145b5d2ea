// The flattened knowledge base as plain data: what the layers above rely on.
ghost use Rattle.std.specs.Prelude.{◌≡◌, ◌+◌, ◌≤◌, length};

use arrayvec::ArrayVec;
use flattening::parts::{Atom, Quantifier};

// How many parts and roles there are: document 01's c and L.
#[derive(Clone, Copy, PartialEq, Eq)]
pub struct Size {
    pub parts: usize,
    pub roles: usize,
    pub ghost within: { parts + roles ≤ 12 },
}

// A restriction's filler: everything, nothing, or a part.
// Not `Atom`: the number is a part's, and a part may be fresh.
#[derive(Clone, Copy, PartialEq, Eq)]
pub enum Filler {
    Everything,
    Nothing,
    Part(u8),
}

impl From<Atom> for Filler {
    ghost use Rattle.syntax.specs.Flatten.{atomic};
    ghost use Rattle.flattening.specs.Origins.{atom_is};
    ghost use Rattle.tbox.specs.Promise.{filler_is};

    ghost from_gives = { λ a f. f ≡ filler_is (atomic (atom_is a)) };

    fn from(atom: Atom) -> Filler {
        match atom {
            Atom::Everything => Filler::Everything,
            Atom::Nothing => Filler::Nothing,
            Atom::Name(t) => Filler::Part(t),
        }
    }
}

#[derive(Clone, Copy, PartialEq, Eq, Default)]
pub enum Kind {
    #[default]
    Name,
    Fresh,
    Restriction(Quantifier, Filler),
}

// A part: its kind, and the role sets on which a restriction's role holds.
// The words stand beside the kind and not in it, so that the loops over role sets match no kind.
#[derive(Clone, Copy, Default)]
pub struct Part {
    pub kind: Kind,
    pub role: [u64; 4],
}

// The names, the parts and roles, the labels on which every flattened axiom holds, and the role sets that are closed: on which
// every role inclusion holds.
// 64 words whatever c is: there is no heap, and a label of 12 bits always has its word.
#[derive(Drop)]
pub struct Base {
    pub names: usize,
    pub size: Size,
    pub parts: ArrayVec<Part, 12>,
    pub good: [u64; 64],
    pub closed: [u64; 4],
    pub ghost all: { length parts.items ≡ size.parts },
    // Here and not in `Size`, whose functions need c + L alone.
    pub ghost few: { size.roles ≤ 4 },
}
