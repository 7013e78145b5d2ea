// A slot judged.
ghost use Rattle.std.specs.Prelude.{◌≡◌, length};
ghost use Rattle.queue.specs.Steps.{JudgesAlone, JudgesSlot};

use refusals::Reason;

// What a slot's line says after its number; no `Result`, since a refused slot is answered as well as any other.
#[derive(Clone, Copy, PartialEq, Eq)]
pub enum SlotAnswer {
    // The survivor count.
    Met(u64),
    Unmet(u64),
    // The refusal's number, as the definitions take it from the numbers that judge says: they tell of no `Reason`.
    Refused(u8),
}

// What judging the sheet says, whatever the 4,096 words hold.
fn judge_alone(sheet: &[u8], set: &mut [u64; 4096]) -> SlotAnswer
    ensures { JudgesAlone sheet.now set.old set.new result }
{
    match domino::judge(sheet, set) {
        Err(refusal) => SlotAnswer::Refused(refusal.reason.number()),
        Ok(judgement) => {
            if judgement.is_met() {
                SlotAnswer::Met(judgement.survivors)
            } else {
                SlotAnswer::Unmet(judgement.survivors)
            }
        }
    }
}

// What a slot of 767 bytes says: its length, low byte first, is that of the sheet behind it.
pub(crate) fn judge_slot(slot: &[u8], set: &mut [u64; 4096]) -> SlotAnswer
    requires { length slot.now ≡ 767 }
    ensures { JudgesSlot slot.now set.old set.new result }
{
    let n = usize::from(u16::from_le_bytes([slot[0], slot[1]]));
    match slot[2..].get(..n) {
        Some(sheet) => judge_alone(sheet, set),
        None => SlotAnswer::Refused(Reason::SlotTooLong.number()),
    }
}
