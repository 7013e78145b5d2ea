// One step: what stands at the front of the input, a line for it, and the totals that follow.
ghost use Rattle.std.specs.Prelude.{◌≡◌};
ghost use Rattle.queue.specs.Queue.{end_first};
ghost use Rattle.queue.specs.Steps.{takes, wanted, Steps};

use crate::lines::{Line, last_line, slot_line};
use crate::slots::judge_slot;
use crate::totals::Totals;

// The kinds that stand in front of a slot and at the queue's end.
// Bytes and no enum: each is compared with one byte of the input, and every other byte cuts the queue off.
const SLOT: u8 = 0x30;

const END: u8 = 0x31;

// How many slots may come.
const MOST: u64 = 4096;

// How many bytes a slot has with its kind.
const WHOLE: usize = 768;

// What a step comes to.
#[derive(Drop)]
pub struct Stepped {
    // The totals that follow, if there is more to come.
    pub next: Option<Totals>,
    pub line: Line,
}

// How many bytes the next step reads, whose first is a kind, when so many slots came before.
pub(crate) fn wanted(sheets: u64, kind: u8) -> usize
    ensures { result ≡ wanted sheets kind }
{
    if kind == SLOT && sheets < MOST {
        WHOLE
    } else {
        1
    }
}

// Does a whole slot that may come stand in front?
fn takes(t: Totals, input: &[u8]) -> bool
    ensures { result ≡ takes t input.now }
{
    t.sheets < MOST && input.len() >= WHOLE && input[0] == SLOT
}

// Does the queue end here?
fn ends(input: &[u8]) -> bool
    ensures { result ≡ end_first input.now }
{
    input.first() == Some(&END)
}

// Judges the slot in front, or says the last line, which none follows. Of the input no more is looked at than `wanted` says.
// Totals and words stay two parameters: the next totals are an answer, none at the end, and the words are memory that is lent.
pub(crate) fn step(t: Totals, input: &[u8], set: &mut [u64; 4096]) -> Stepped
    ensures { Steps t input.now set.old set.new result }
{
    if takes(t, input) {
        let answer = judge_slot(&input[1..WHOLE], set);
        return Stepped {
            next: Some(t.add(answer)),
            line: slot_line(t.sheets, answer),
        };
    }
    Stepped {
        next: None,
        line: last_line(ends(input).then_some(t)),
    }
}
