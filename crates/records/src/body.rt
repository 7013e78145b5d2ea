// The tests of a record's body: its number, its references and its empty role set.
ghost use Rattle.std.specs.Prelude.{◌≡◌, ◌≤◌, ◌+◌, OnOk};
ghost use Rattle.records.specs.Scan.{fault_at_lem, number_fault_lem, sort_fault_lem, again_fault_lem, reference_fault_lem, empty_fault_lem, body_fault};
ghost use Rattle.records.specs.Kinds.{sort_no, wanted_no, shape_seen};
ghost use Rattle.records.specs.Nodes.{entry_of};
ghost use Rattle.records.specs.RecordTable.{fault_number, Tells, both_named};

use crate::nodes::Record;
use crate::shapes::{Shape, Sort};
use crate::table::Table;
use refusals::{Reason, Refusal};

#[tactic(auto, unfolding(crate::specs::Scan::number_fault_lem))]
fn number_fault(shape: Shape, a: u8) -> Result<(), Reason>
    ensures { fault_number result ≡ number_fault_lem (shape_seen shape) a }
{
    match shape.largest {
        Some(n) if a > n => Err(Reason::NumberTooLarge),
        _ => Ok(()),
    }
}

// The fault of naming a record of a sort where another is wanted.
#[tactic(auto, unfolding(crate::specs::Scan::sort_fault_lem))]
fn sort_fault(wanted: Sort, found: Sort) -> Result<(), Reason>
    ensures { fault_number result ≡ sort_fault_lem (sort_no wanted) (sort_no found) }
{
    if found == wanted {
        return Ok(());
    }
    match found {
        Sort::Concept => Err(Reason::ConceptForRole),
        Sort::Role => Err(Reason::RoleForConcept),
        Sort::Axiom => Err(Reason::AxiomNamed),
    }
}

#[tactic(auto, unfolding(crate::specs::Nodes::entry_of, crate::specs::Scan::again_fault_lem))]
fn again_fault(found: Record) -> Result<(), Reason>
    ensures { fault_number result ≡ again_fault_lem (entry_of found) }
{
    if found.named && !found.node.is_leaf() {
        return Err(Reason::NamedAgain);
    }
    Ok(())
}

// The fault of a reference to record r that must be of a sort; with none there is no reference.
fn reference_fault(table: &Table, wanted: Option<Sort>, r: u8) -> Result<(), Reason>
    ensures { fault_number result ≡ reference_fault_lem table.now (wanted_no wanted) r }
{
    let Some(sort) = wanted else {
        return Ok(());
    };
    let Some(record) = table.record(r) else {
        return Err(Reason::NotEarlier);
    };
    let found = record.node.sort();
    sort_fault(sort, found)?;
    again_fault(record)
}

#[tactic(auto, unfolding(crate::specs::Scan::empty_fault_lem))]
fn empty_fault(table: &Table, shape: Shape, a: u8) -> Result<(), Reason>
    ensures { fault_number result ≡ empty_fault_lem table.now (shape_seen shape) a }
{
    if shape.needs_restricted() && table.is_vacuous(a) {
        return Err(Reason::EmptyRoles);
    }
    Ok(())
}

// A fault, if there is one, with its place: so many bytes past the start of its record.
fn placed(fault: Result<(), Reason>, at: usize, offset: usize) -> Result<(), Refusal>
    requires { at + offset ≤ usize.MAX }
    ensures { Tells at (fault_at_lem offset (fault_number fault)) result }
{
    fault.map_err(|n| Refusal::at(n, at + offset))
}

// The first fault of the body a, b of a record at a place. The second reference sees that the first has named its record.
// Shape, place and bytes are no struct: the record is made of them only after the last test.
pub fn check_body(table: &mut Table, shape: Shape, at: usize, a: u8, b: u8) -> Result<(), Refusal>
    requires { at + 2 ≤ usize.MAX }
    ensures fault { Tells at (body_fault table.old (shape_seen shape) a b) result }
    ensures named { OnOk result (table.new ≡ both_named table.old (shape_seen shape) a b) }
{
    placed(number_fault(shape, a), at, 0)?;
    placed(reference_fault(table, shape.first, a), at, 1)?;
    table.name(shape.first, a);
    placed(reference_fault(table, shape.second, b), at, 2)?;
    table.name(shape.second, b);
    placed(empty_fault(table, shape, a), at, 0)
}
