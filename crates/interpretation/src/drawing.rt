// An interpretation on file and the knowledge base that it is held against.
ghost use Rattle.std.specs.Prelude.{◌≡◌};
ghost use Rattle.domino_conditions.specs.Tables.{view};
ghost use Rattle.drawings.specs.Entries.{entries_of, names_of};
ghost use Rattle.drawings.specs.Checking.{file_fault};

use drawing_rows::fill_rows;
use tbox::base::Base;

// What was found: that all holds, the first individual that breaks an axiom, or else the first pair that breaks a role inclusion.
#[derive(Clone, Copy, PartialEq, Eq)]
pub enum Finding {
    Holds,
    Individual(usize),
    Pair(usize, usize),
}

// A knowledge base, a file without a fault, and the names and fresh names of each individual, read from it.
#[derive(Clone, Copy)]
pub struct Drawing<'a> {
    pub base: &'a Base,
    pub file: &'a [u8],
    pub names: &'a [u16],
    ghost sound: { file_fault (view base.now) file.now ≡ 0 },
    ghost read: { names.now ≡ names_of (entries_of file.now) },
}

impl Drawing<'_> {
    ghost use Rattle.std.specs.Prelude.{◌<◌};
    ghost use Rattle.interpretation.specs.Drawings.{count_of, BlockOf};

    // The rows from the individual `start` on, as many as the block has room for. Answers how many.
    pub(crate) fn fill(&self, block: &mut [u64; 16384], start: usize) -> usize
        requires { start < count_of self.now }
        ensures { BlockOf self.now start block.new result }
    {
        let count = (self.names.len() - start).min(128);
        fill_rows(&mut block[..count << 7], start, self.file);
        count
    }
}
