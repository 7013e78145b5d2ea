// The members of a domino set in rising order, at most 341, since a file has at most 1,024 individuals, three for each.
ghost use Rattle.std.specs.Prelude.{◌≡◌, ◌*◌, ◌^◌, ◌≤◌, length};
ghost use Rattle.bitset.specs.Bits.{look, words_for_lem};
ghost use Rattle.semantics.specs.Dominoes.{total};
ghost use Rattle.semantics.specs.Layers.{rising};
ghost use Rattle.drawing_layers.specs.Listing.{Lists, ListOf};

use arrayvec::ArrayVec;
use domino_conditions::numbers::{dominoes, words_for};
use tbox::base::Size;

// Adds those from one number on to another. None: there are more than there is room for.
#[tactic(auto, using(crate::proofs::Listing::rising_with, crate::proofs::Listing::rising_without, crate::proofs::Listing::too_many))]
fn add_members(set: &[u64], from: usize, to: usize, members: &mut ArrayVec<u32, 341>) -> Option<()>
    requires { (from ≤ to) × (to ≤ 64 * length set.now) × (to ≤ 2 ^ 24) × (members.old.items ≡ rising (look set.now) from) }
    ensures { Lists (look set.now) to members.new.items result }
{
    for n in from..to {
        if bitset::member(set, n) {
            members.try_push(n as u32).ok()?;
        }
    }
    Some(())
}

// All of them. A word without any is passed over.
#[tactic(auto, using(crate::proofs::Listing::rising_none, crate::proofs::Listing::too_many_more))]
pub fn members_of(set: &[u64], size: Size) -> Option<ArrayVec<u32, 341>>
    requires { words_for_lem (total size.parts size.roles) ≤ length set.now }
    ensures { ListOf (look set.now) (total size.parts size.roles) result }
{
    let total = dominoes(size);
    let mut members = ArrayVec::new();
    for (w, word) in set[..words_for(size)].iter().enumerate() {
        if *word != 0 {
            let from = w << 6;
            add_members(set, from, (from + 64).min(total), &mut members)?;
        }
    }
    Some(members)
}
