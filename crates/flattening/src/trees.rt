// Concepts and roles of the table, gone down record by record.
ghost use Rattle.std.specs.Prelude.{◌≡◌};
ghost use Rattle.flattening.specs.Trees.{NodeOf, operand_of};

use records::nodes::Node;
use records::table::Table;

// A record of a table, which is read with those below a number alone.
// A number and no reference: a sheet names records by number, and there is no heap.
#[derive(Clone, Copy)]
pub struct Tree<'a> {
    pub table: &'a Table,
    pub number: u8,
    pub below: usize,
}

impl<'a> Tree<'a> {
    // What the record says, if it is one below the number.
    pub fn node(self) -> Option<Node>
        ensures { NodeOf self.entry result }
    {
        if self.below <= usize::from(self.number) {
            return None;
        }
        self.table.node(self.number)
    }

    // A record that this one names, read with those below this one.
    pub fn operand(self, number: u8) -> Tree<'a>
        ensures { result ≡ operand_of self.entry number }
    {
        Tree {
            table: self.table,
            number,
            below: usize::from(self.number),
        }
    }
}
