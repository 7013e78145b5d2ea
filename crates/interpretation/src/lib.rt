// Interpretations on file: the check of one against a sheet, and the drawing of one that is a model of a sheet.
#![tactic(auto)]

ghost use Rattle.syntax.specs.Reading.{read_kb};
ghost use Rattle.syntax.specs.Answers.{limit};
ghost use Rattle.interpretation.specs.Answers.{ChecksPlant};
ghost use Rattle.interpretation.specs.DrawnPlant.{DrawsPlant};

pub mod dominoes;
pub mod drawing;
pub mod individual_labels;
pub mod tables;

use crate::drawing::{Drawing, Finding};
use domino::load_for;
use domino_labels::judging::judge_set;
use domino_parts::words::parts_of;
use drawing_entries::{MOST_INDIVIDUALS, read_individuals};
use drawing_layers::draw_set;
use refusals::Refusal;

impl Drawing<'_> {
    ghost use Rattle.std.specs.Prelude.{length};
    ghost use Rattle.domino_conditions.specs.Tables.{Enough};
    ghost use Rattle.interpretation.specs.Drawings.{Checks};

    // The first place where an axiom or a role inclusion breaks; the dominoes into the set.
    // Not inlined: its block is most of what a call takes of the stack, and the stack has none of it while the sheet is read.
    #[inline(never)]
    fn check(&self, set: &mut [u64]) -> Finding
        requires { Enough self.now.base.now (length set.old) }
        ensures { Checks self.now set.old set.new result }
    {
        let mut block = [0u64; 16384];
        let mut labels = [0u16; 1024];
        self.label_all(&mut block, &mut labels);
        let pair = self.put_all(&mut block, &labels, set);
        match self.first_bad(&labels) {
            Some(x) => Finding::Individual(x),
            None => pair,
        }
    }
}

// Document 02's check of a drawn plant: refuses, or writes the plant's dominoes and answers where it breaks the sheet first.
pub fn check_plant(sheet: &[u8], file: &[u8], set: &mut [u64]) -> Result<Finding, Refusal>
    ensures { ChecksPlant (read_kb limit sheet.now) file.now set.old set.new result }
{
    let base = load_for(sheet, set.len())?;
    let mut names = [0u16; MOST_INDIVIDUALS];
    let plain = parts_of(&base, None);
    let count = read_individuals(file, usize::from(plain), base.size.roles, &mut names)?;
    let drawing = Drawing {
        base: &base,
        file,
        names: &names[..count],
    };
    Ok(drawing.check(set))
}

// Document 02's drawing of a plant: refuses, or writes a model of the sheet and answers how many bytes; the set is judged.
pub fn draw_plant(sheet: &[u8], set: &mut [u64], out: &mut [u8]) -> Result<usize, Refusal>
    ensures { DrawsPlant (read_kb limit sheet.now) set.old set.new out.old out.new result }
{
    let base = load_for(sheet, set.len())?;
    judge_set(set, &base);
    draw_set(base.size, parts_of(&base, None), set, out)
}
