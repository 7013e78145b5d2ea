// The parts of a kind, those whose role holds on a role set, and those whose filler is in a label: words with a bit a part.
ghost use Rattle.std.specs.Prelude.{ℕ, ◌≡◌, ◌+◌, ◌^◌, ◌<◌, Bool};
ghost use Rattle.bitset.specs.Bits.{word};
ghost use Rattle.tbox.specs.Promise.{kind_number};
ghost use Rattle.domino_conditions.specs.Tables.{view, kind_has};
ghost use Rattle.domino_parts.specs.PartWords.{is_of_lem, of_kind, on_role_set, filled_by};

use domino_conditions::conditions::filler_in_label;
use domino_conditions::numbers::pow;
use flattening::parts::Quantifier;
use tbox::base::{Base, Kind};

// Parts below k, and part k if it is on.
fn with_part(parts: usize, k: usize, on: bool) -> usize
    requires { (k < 12) × (parts < 2 ^ k) }
    ensures { (D : ℕ → Bool) → parts ≡ word k D → on ≡ D k → result ≡ word (k + 1) D }
{
    if on { parts + pow(k) } else { parts }
}

// Is it a restriction with this quantifier; with none: is it a name or a fresh name?
#[tactic(auto, unfolding(crate::specs::PartWords::is_of_lem, tbox::specs::Promise::kind_number))]
fn is_of(kind: Kind, quantifier: Option<Quantifier>) -> bool
    ensures { result ≡ is_of_lem quantifier (kind_number kind) }
{
    match kind {
        Kind::Name | Kind::Fresh => quantifier.is_none(),
        Kind::Restriction(q, _) => quantifier == Some(q),
    }
}

// The parts of a kind.
pub fn parts_of(base: &Base, quantifier: Option<Quantifier>) -> u16
    ensures { result ≡ of_kind (view base.now) quantifier }
{
    let mut parts = 0;
    for (k, part) in base.parts.iter().enumerate() {
        parts = with_part(parts, k, is_of(part.kind, quantifier));
    }
    parts as u16
}

// The parts whose role holds on the role set r.
pub fn parts_on(base: &Base, r: usize) -> u16
    requires { r < 256 }
    ensures { result ≡ on_role_set (view base.now) r }
{
    let mut parts = 0;
    for (k, part) in base.parts.iter().enumerate() {
        parts = with_part(parts, k, bitset::member(&part.role, r));
    }
    parts as u16
}

// Is it a restriction whose filler is in a label?
#[tactic(auto, unfolding(domino_conditions::specs::Tables::kind_has))]
fn has_filler(kind: Kind, label: usize) -> bool
    ensures { result ≡ kind_has kind label }
{
    match kind {
        Kind::Name | Kind::Fresh => false,
        Kind::Restriction(_, filler) => filler_in_label(filler, label),
    }
}

// The parts whose filler is in a label; the names and fresh names alone are enough of it, since a filler is one of these.
pub fn parts_filled(base: &Base, label: usize) -> u16
    ensures { result ≡ filled_by (view base.now) label }
{
    let mut parts = 0;
    for (k, part) in base.parts.iter().enumerate() {
        parts = with_part(parts, k, has_filler(part.kind, label));
    }
    parts as u16
}
