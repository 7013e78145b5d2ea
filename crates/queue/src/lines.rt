// The lines that the program prints.
ghost use Rattle.std.specs.Prelude.{◌≡◌, ◌++◌, ◌+◌, ◌≤◌, length, IfSome, IfNone};
ghost use Rattle.arrayvec.specs.ArrayVec.{array_vec_len};
ghost use Rattle.output.specs.Text.{text};
ghost use Rattle.report.specs.Decimals.{decimal};
ghost use Rattle.queue.specs.Lines.{slot_line, totals_line};

use crate::slots::SlotAnswer;
use crate::totals::Totals;
use arrayvec::ArrayVec;
use refusals::Reason;
use report::{put_labelled, put_number, put_text};

// No line is longer, whatever its numbers.
pub type Line = ArrayVec<u8, 160>;

// Puts a word and a number, which end a line.
fn put_value(line: &mut Line, word: &[u8], n: u64)
    requires { array_vec_len line.old + length word.now + 21 ≤ 160 }
    ensures { line.new.items ≡ line.old.items ++ (word.now ++ decimal n ++ text "\n") }
{
    put_labelled(line, word, n);
    put_text(line, b"\n");
}

// The line of a slot.
pub(crate) fn slot_line(number: u64, answer: SlotAnswer) -> Line
    ensures { result.items ≡ slot_line number answer }
{
    let mut line = Line::new();
    put_number(&mut line, number);
    match answer {
        SlotAnswer::Met(s) => put_value(&mut line, b" met ", s),
        SlotAnswer::Unmet(s) => put_value(&mut line, b" unmet ", s),
        SlotAnswer::Refused(n) => put_value(&mut line, b" refused ", u64::from(n)),
    }
    line
}

// The line of the totals.
#[tactic(auto, unfolding(output::specs::Text::text, crate::specs::Lines::totals_line))]
fn totals_line(t: Totals) -> Line
    ensures { result.items ≡ totals_line t }
{
    let mut line = Line::new();
    put_labelled(&mut line, b"sheets ", t.sheets);
    put_labelled(&mut line, b" met ", t.met);
    put_labelled(&mut line, b" unmet ", t.unmet);
    put_labelled(&mut line, b" refused ", t.refused);
    put_value(&mut line, b" survivors ", t.survivors);
    line
}

// The last line: the totals of a queue that ended as it should, else refusal 15.
pub(crate) fn last_line(ended: Option<Totals>) -> Line
    ensures totals { IfSome ended (λ t. result.items ≡ totals_line t) }
    ensures cut_off { IfNone ended (result.items ≡ text "refused 15\n") }
{
    match ended {
        Some(t) => totals_line(t),
        None => {
            let mut line = Line::new();
            put_value(
                &mut line,
                b"refused ",
                u64::from(Reason::QueueCutOff.number()),
            );
            line
        }
    }
}
