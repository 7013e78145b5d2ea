// Reads a sheet record by record into a table, or finds its first fault.
#![tactic(auto)]

ghost use Rattle.std.specs.Prelude.{◌≡◌, ◌+◌, ◌<◌, ◌^◌, max, length, get_or, IfOk};
ghost use Rattle.records.specs.Scan.{names_after_lem, roles_after_lem, body_byte_lem, record_fault, record_after};
ghost use Rattle.records.specs.Kinds.{shape_seen};
ghost use Rattle.records.specs.Nodes.{node_kind, node_first};
ghost use Rattle.records.specs.RecordTable.{state_of, Tells, Scans};

mod body;
pub mod nodes;
pub mod shapes;
pub mod table;

use crate::body::check_body;
use crate::nodes::{Node, Record, node_of};
use crate::shapes::{Shape, shape_of};
use crate::table::Table;
use refusals::{Reason, Refusal};

// How far reading has come: the next record's place, and one more than the largest number of a name and of a role.
#[derive(Clone, Copy, Default)]
pub struct Progress {
    pub at: usize,
    pub names: usize,
    pub roles: usize,
}

// One more than a number, if that is larger.
fn larger(x: usize, n: u8) -> usize
    ensures { result ≡ max x (n + 1) }
{
    x.max(usize::from(n) + 1)
}

impl Progress {
    // After a record with such a node, and with a body of so many bytes.
    #[tactic(auto, unfolding(crate::specs::Scan::names_after_lem, crate::specs::Scan::roles_after_lem))]
    fn after(self, node: Node, body: u8) -> Progress
        requires { self.at < 2 ^ 63 }
        ensures at { result.at ≡ self.at + 1 + body }
        ensures names { result.names ≡ names_after_lem self.names (node_kind node) (node_first node) }
        ensures roles { result.roles ≡ roles_after_lem self.roles (node_kind node) (node_first node) }
    {
        let at = self.at + 1 + usize::from(body);
        let (names, roles) = match node {
            Node::Name(t) => (larger(self.names, t), self.roles),
            Node::Role(k) | Node::Inverse(k) => (self.names, larger(self.roles, k)),
            _ => (self.names, self.roles),
        };
        Progress { at, names, roles }
    }
}

// Body byte i of the record at a place, 0 where the shape has none.
// 0 and no `None`: the definitions give every record two body bytes, and no test looks at one that is not there.
fn body_byte(sheet: &[u8], at: usize, shape: Shape, i: u8) -> u8
    requires { at + shape.body < length sheet.now }
    ensures { result ≡ body_byte_lem sheet.now at (shape_seen shape) i }
{
    if i <= shape.body {
        sheet[at + usize::from(i)]
    } else {
        0
    }
}

// One record, of kind k.
// Sheet, table and progress are no struct: the sheet is read, the table is written, and the progress is an answer.
#[inline(always)]
fn step_of_kind(sheet: &[u8], table: &mut Table, p: Progress, k: u8) -> Result<Progress, Refusal>
    requires { (length table.old < 255) × (p.at < length sheet.now) × (k ≡ get_or sheet.now p.at 0) }
    ensures fault { Tells p.at (record_fault sheet.now (state_of table.old p)) result }
    ensures state { IfOk result (λ q. state_of table.new q ≡ record_after sheet.now (state_of table.old p)) }
{
    let at = p.at;
    let Some(shape) = shape_of(k) else {
        return Err(Refusal::at(Reason::UnknownKind, at));
    };
    let left = sheet.len() - (at + 1);
    if left < usize::from(shape.body) {
        return Err(Refusal::at(Reason::BodyCutOff, at));
    }
    let a = body_byte(sheet, at, shape, 1);
    let b = body_byte(sheet, at, shape, 2);
    check_body(table, shape, at, a, b)?;
    let Some(node) = node_of(k, a, b) else {
        unreachable!();
    };
    let vacuous = table.vacuous_of(node);
    table.push(Record {
        node,
        named: false,
        vacuous,
    });
    Ok(p.after(node, shape.body))
}

// One record. The calls differ in the kind only, which is a constant in each, so that each kind has code of its own: one call with
// the kind as it is read takes 1.7 to 3 times as long.
fn step(sheet: &[u8], table: &mut Table, p: Progress) -> Result<Progress, Refusal>
    requires { (length table.old < 255) × (p.at < length sheet.now) }
    ensures fault { Tells p.at (record_fault sheet.now (state_of table.old p)) result }
    ensures state { IfOk result (λ q. state_of table.new q ≡ record_after sheet.now (state_of table.old p)) }
{
    let k = sheet[p.at];
    match k {
        0x01 => step_of_kind(sheet, table, p, 0x01),
        0x02 => step_of_kind(sheet, table, p, 0x02),
        0x03 => step_of_kind(sheet, table, p, 0x03),
        0x04 => step_of_kind(sheet, table, p, 0x04),
        0x05 => step_of_kind(sheet, table, p, 0x05),
        0x06 => step_of_kind(sheet, table, p, 0x06),
        0x07 => step_of_kind(sheet, table, p, 0x07),
        0x08 => step_of_kind(sheet, table, p, 0x08),
        0x10 => step_of_kind(sheet, table, p, 0x10),
        0x11 => step_of_kind(sheet, table, p, 0x11),
        0x12 => step_of_kind(sheet, table, p, 0x12),
        0x13 => step_of_kind(sheet, table, p, 0x13),
        0x14 => step_of_kind(sheet, table, p, 0x14),
        0x20 => step_of_kind(sheet, table, p, 0x20),
        0x21 => step_of_kind(sheet, table, p, 0x21),
        _ => step_of_kind(sheet, table, p, k),
    }
}

// All records, into the table; what it held is gone.
pub fn scan(sheet: &[u8], table: &mut Table) -> Result<Progress, Refusal>
    ensures { Scans sheet.now table.new result }
{
    table.clear();
    let mut p = Progress::default();
    // By place, since the records are of different lengths.
    while p.at < sheet.len() {
        if table.is_full() {
            return Err(Refusal::at(Reason::TooManyRecords, p.at));
        }
        p = step(sheet, table, p)?;
    }
    Ok(p)
}
