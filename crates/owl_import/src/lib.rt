// Knowledge bases from OWL 2 functional-style syntax (02, N7).
#![tactic(auto)]

ghost use Rattle.owl_import.specs.Import.{imported};
ghost use Rattle.output.specs.Output.{Writes};

use crate::parser::Parser;
use refusals::{Reason, Refusal};

mod parser;
mod sheet;

// The sheet of a text. Calls nest at most as deep as 255 forms.
pub fn import(text: &[u8], out: &mut [u8]) -> Result<usize, Refusal>
    ensures { Writes (imported text.now) out.old out.new result }
{
    let mut parser = Parser::new(text);
    parser.axioms()?;
    let sheet = parser.sheet.bytes.as_slice();
    if out.len() < sheet.len() {
        return Err(Refusal::of(Reason::OutputTooShort));
    }
    out[..sheet.len()].copy_from_slice(sheet);
    Ok(sheet.len())
}
