// Domino sets in lent words: open, strike, settle and judge.
#![tactic(auto)]

ghost use Rattle.std.specs.Prelude.{◌<◌, length};
ghost use Rattle.syntax.specs.Reading.{read_kb};
ghost use Rattle.syntax.specs.Answers.{limit};
ghost use Rattle.semantics.specs.Dominoes.{total};
ghost use Rattle.domino_conditions.specs.Tables.{view, Enough};
ghost use Rattle.domino.specs.OwnSteps.{LoadsFor, StrikesSet};
ghost use Rattle.domino.specs.Answers.{Opens, Strikes, Settles, Judges};

use domino_conditions::conditions::{Condition, DominoSet};
use domino_conditions::numbers::{dominoes, words_for};
use domino_initial::initial::open_set;
use domino_labels::judging::{Judgement, judge_set};
use domino_settling::settling::settle_set;
use refusals::{Reason, Refusal};
use tbox::base::Base;

#[derive(Clone, Copy, PartialEq, Eq)]
pub enum Verdict {
    Absent,
    // The first condition that the domino failed.
    Struck(Condition),
    Kept,
}

// A verdict beside the domino's number: the struct with a verdict enum that document 01 asks for.
#[derive(Clone, Copy, PartialEq, Eq)]
pub struct Outcome {
    pub number: usize,
    pub verdict: Verdict,
}

// The knowledge base of a sheet, for a call on a set of so many words.
pub fn load_for(sheet: &[u8], words: usize) -> Result<Base, Refusal>
    ensures { LoadsFor (read_kb limit sheet.now) words result }
{
    let base = tbox::loading::load(sheet)?;
    if words < words_for(base.size) {
        return Err(Refusal::of(Reason::SetTooShort));
    }
    Ok(base)
}

// Writes the initial set and answers its size.
// Four calls, and no one that takes the step as a closure: each is a call of the interface, with its own contract.
pub fn open(sheet: &[u8], set: &mut [u64]) -> Result<u64, Refusal>
    ensures { Opens (read_kb limit sheet.now) set.old set.new result }
{
    let base = load_for(sheet, set.len())?;
    Ok(open_set(set, &base))
}

// Takes a domino out if it is in the set and defective.
pub fn strike(sheet: &[u8], set: &mut [u64], number: usize) -> Result<Outcome, Refusal>
    ensures { Strikes (read_kb limit sheet.now) number set.old set.new result }
{
    let base = load_for(sheet, set.len())?;
    if number >= dominoes(base.size) {
        return Err(Refusal::of(Reason::NoSuchDomino));
    }
    let verdict = strike_set(set, &base, number);
    Ok(Outcome { number, verdict })
}

// Leaves the largest stable subset of the set and answers its size.
pub fn settle(sheet: &[u8], set: &mut [u64]) -> Result<u64, Refusal>
    ensures { Settles (read_kb limit sheet.now) set.old set.new result }
{
    let base = load_for(sheet, set.len())?;
    Ok(settle_set(set, &base))
}

// Opens and settles: leaves the canonical set, and answers the sizes of the initial and of the canonical set.
pub fn judge(sheet: &[u8], set: &mut [u64]) -> Result<Judgement, Refusal>
    ensures { Judges (read_kb limit sheet.now) set.old set.new result }
{
    let base = load_for(sheet, set.len())?;
    Ok(judge_set(set, &base))
}

// The verdict on a domino; a defective one is taken out.
fn strike_set(set: &mut [u64], base: &Base, number: usize) -> Verdict
    requires { Enough base.now (length set.old) × (number < total base.now.size.parts base.now.size.roles) }
    ensures { StrikesSet (view base.now) number set.old set.new result }
{
    if !bitset::member(set, number) {
        return Verdict::Absent;
    }
    match (DominoSet { set, base }).defect(number) {
        Some(condition) => {
            bitset::clear(set, number);
            Verdict::Struck(condition)
        }
        None => Verdict::Kept,
    }
}
