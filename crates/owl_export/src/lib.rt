// Knowledge bases to OWL 2 functional-style syntax (02, N7).
#![tactic(auto)]

ghost use Rattle.output.specs.Output.{Writes};
ghost use Rattle.owl_export.specs.Export.{exported};

mod composed;
mod writer;

use crate::composed::first_beyond_text;
use crate::writer::Writer;
use records::table::Table;
use refusals::{Reason, Refusal};
use tbox::admission::{Admitted, PartList};

// The text of a sheet. It is gone through twice, first for its length, since a refusal leaves the buffer as it was.
// Calls nest at most as deep as the 255 records of a sheet.
pub fn export(sheet: &[u8], out: &mut [u8]) -> Result<usize, Refusal>
    ensures { Writes (exported sheet.now) out.old out.new result }
{
    let mut table = Table::new();
    let mut parts = PartList::new();
    Admitted::read(sheet, &mut table, &mut parts)?;
    if let Some(at) = first_beyond_text(&table) {
        return Err(Refusal::at(Reason::BeyondText, at));
    }
    let most = out.len();
    let mut counted = Writer {
        out: &mut [],
        at: 0,
        most,
    };
    let Some(()) = counted.axioms(&table) else {
        return Err(Refusal::of(Reason::OutputTooShort));
    };
    let mut written = Writer { out, at: 0, most };
    let Some(()) = written.axioms(&table) else {
        unreachable!();
    };
    Ok(written.at)
}
