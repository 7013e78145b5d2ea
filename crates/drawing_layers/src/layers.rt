// Three layers of individuals, one a member in each (02, N11).
ghost use Rattle.std.specs.Prelude.{◌≤◌, length};

use domino_conditions::numbers::{inverse, left_of, right_of, roles_of};
use tbox::base::Size;

// An individual: its layer, 0 to 2, and its member.
#[derive(Clone, Copy)]
pub struct Individual {
    pub layer: usize,
    pub member: usize,
}

// A member's labels, and its role set the other way.
#[derive(Clone, Copy)]
pub struct Sides {
    pub left: usize,
    pub right: usize,
    pub back: usize,
}

// The numbers of a domino set's members, and which parts are names or fresh names, as bits.
#[derive(Clone, Copy)]
pub struct Layers<'a> {
    pub size: Size,
    pub plain: u16,
    pub members: &'a [u32],
    ghost few: { length members.now ≤ 341 },
    ghost roles: { size.roles ≤ 4 },
}

impl Layers<'_> {
    ghost use Rattle.std.specs.Prelude.{ℕ, ◌≡◌, ◌<◌};
    ghost use Rattle.drawing_layers.specs.Pieces.{count_of, left_at, roles_in, right_at, number_of, names_of_member};
    ghost use Rattle.drawing_layers.specs.Pieces.{SidesOf, roles_after, roles_before};

    // The left label of a member, its role set and its right label.
    fn left(&self, i: usize) -> usize
        requires { i < count_of self.now }
        ensures { result ≡ left_at self.now i }
    {
        left_of(self.size, self.members[i] as usize)
    }

    fn roles(&self, i: usize) -> usize
        requires { i < count_of self.now }
        ensures { result ≡ roles_in self.now i }
    {
        roles_of(self.size, self.members[i] as usize)
    }

    fn right(&self, i: usize) -> usize
        requires { i < count_of self.now }
        ensures { result ≡ right_at self.now i }
    {
        right_of(self.size, self.members[i] as usize)
    }

    // What of member i decides the connections that begin at its individuals: taken once for all j.
    pub(crate) fn sides(&self, i: usize) -> Sides
        requires { i < count_of self.now }
        ensures { SidesOf self.now i result }
    {
        Sides {
            left: self.left(i),
            right: self.right(i),
            back: inverse(self.size.roles, self.roles(i)),
        }
    }

    // The role set from an individual of a member to one of member j, in the layer after its own.
    pub(crate) fn roles_after(&self, from: Sides, j: usize) -> usize
        requires { j < count_of self.now }
        ensures { (i : ℕ) → SidesOf self.now i from → result ≡ roles_after self.now i j }
    {
        if from.right == self.left(j) {
            self.roles(j)
        } else {
            0
        }
    }

    // The same in the layer before.
    pub(crate) fn roles_before(&self, from: Sides, j: usize) -> usize
        requires { j < count_of self.now }
        ensures { (i : ℕ) → SidesOf self.now i from → result ≡ roles_before self.now i j }
    {
        if self.right(j) == from.left {
            from.back
        } else {
            0
        }
    }

    // The names and fresh names of a member's individuals.
    pub(crate) fn names(&self, i: usize) -> u16
        requires { i < count_of self.now }
        ensures { result ≡ names_of_member self.now i }
    {
        self.right(i) as u16 & self.plain
    }

    // The number of the first individual of a layer.
    pub(crate) fn first(&self, layer: usize) -> usize
        requires { layer < 3 }
        ensures { result ≡ number_of self.now layer 0 }
    {
        let count = self.members.len();
        match layer {
            0 => 0,
            1 => count,
            _ => count + count,
        }
    }
}
