// The drawing of a domino set: an interpretation of three layers, as the bytes of a file.
#![tactic(auto)]

ghost use Rattle.std.specs.Prelude.{◌≤◌, length};
ghost use Rattle.bitset.specs.Bits.{bit, look, words_for_lem};
ghost use Rattle.semantics.specs.Dominoes.{total};
ghost use Rattle.output.specs.Output.{Writes};
ghost use Rattle.drawing_layers.specs.LayersDrawn.{set_output};

mod counting;
mod entries;
pub mod layers;
pub mod members;
mod writing;

use crate::layers::Layers;
use crate::members::members_of;
use refusals::{Reason, Refusal};
use tbox::base::Size;

// Writes the drawing of the members of a set, and answers how many bytes. `plain` has the bits of the parts that are names or fresh names.
// Any set: the canonical one is the caller's choice. Refused: one without members (26) or of more than 341 (27), an output too short (21).
#[tactic(auto, unfolding(crate::specs::LayersDrawn::set_output, output::specs::Output::output_says, output::specs::Output::output_leaves))]
pub fn draw_set(size: Size, plain: u16, set: &[u64], out: &mut [u8]) -> Result<usize, Refusal>
    requires { (size.roles ≤ 4) × (words_for_lem (total size.parts size.roles) ≤ length set.now) }
    ensures { Writes (set_output size.parts size.roles (bit plain) (look set.now)) out.old out.new result }
{
    let Some(members) = members_of(set, size) else {
        return Err(Refusal::of(Reason::TooManyMembers));
    };
    if members.is_empty() {
        return Err(Refusal::of(Reason::EmptySet));
    }
    let layers = Layers {
        size,
        plain,
        members: members.as_slice(),
    };
    let length = layers.file_length();
    if out.len() < length {
        return Err(Refusal::of(Reason::OutputTooShort));
    }
    Ok(layers.put_file(out))
}
