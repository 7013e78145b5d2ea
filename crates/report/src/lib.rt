// Texts and numbers put behind what a lent buffer holds, and the evening program's lines.
// Put part by part: `write!` promises its bytes only where it succeeds, and no clause says that it does.
#![tactic(auto)]

ghost use Rattle.std.specs.Prelude.{◌≡◌, ◌+◌, ◌≤◌, ◌++◌, length};
ghost use Rattle.arrayvec.specs.ArrayVec.{array_vec_len};
ghost use Rattle.refusals.specs.Numbers.{number};
ghost use Rattle.report.specs.Decimals.{decimal};
ghost use Rattle.syntax.specs.Reading.{read_kb};
ghost use Rattle.syntax.specs.Answers.{limit};
ghost use Rattle.tbox.specs.Answers.{part_counts};
ghost use Rattle.domino.specs.Answers.{judge_numbers};
ghost use Rattle.report.specs.Lines.{refused_line, counts_line, sizes_line, verdict_line, judged_lines, Reports};

use arrayvec::ArrayVec;
use domino_labels::judging::Judgement;
use itoa::Buffer;
use refusals::Refusal;
use tbox::Counts;

// Puts a text.
// `out` is of another crate's type, so these are no methods, and each text asks for its own room.
pub fn put_text<const N: usize>(out: &mut ArrayVec<u8, N>, text: &[u8])
    requires { array_vec_len out.old + length text.now ≤ N }
    ensures { out.new.items ≡ out.old.items ++ text.now }
{
    out.try_extend_from_slice(text).unwrap();
}

// Puts a number in decimal digits; no number of 64 bits has more than 20.
pub fn put_number<const N: usize>(out: &mut ArrayVec<u8, N>, n: u64)
    requires { array_vec_len out.old + 20 ≤ N }
    ensures puts { out.new.items ≡ out.old.items ++ decimal n }
    ensures upper_bound { array_vec_len out.new ≤ array_vec_len out.old + 20 }
{
    put_text(out, Buffer::new().format(n).as_bytes());
}

// Puts a text, then a number.
pub fn put_labelled<const N: usize>(out: &mut ArrayVec<u8, N>, label: &[u8], n: u64)
    requires { array_vec_len out.old + length label.now + 20 ≤ N }
    ensures puts { out.new.items ≡ out.old.items ++ label.now ++ decimal n }
    ensures upper_bound { array_vec_len out.new ≤ array_vec_len out.old + length label.now + 20 }
{
    put_text(out, label);
    put_number(out, n);
}

// The line of a refusal: its number, then its place.
pub(crate) fn put_refusal<const N: usize>(out: &mut ArrayVec<u8, N>, refusal: Refusal)
    requires { array_vec_len out.old + 53 ≤ N }
    ensures { out.new.items ≡ out.old.items ++ refused_line (number refusal.reason) refusal.place }
{
    put_labelled(out, b"refused ", u64::from(refusal.reason.number()));
    put_labelled(out, b" at ", refusal.place as u64);
    put_text(out, b"\n");
}

// The line of the counts of parts by kind and of roles.
#[tactic(auto, unfolding(output::specs::Text::text, crate::specs::Lines::counts_line))]
pub(crate) fn put_counts<const N: usize>(out: &mut ArrayVec<u8, N>, counts: Counts)
    requires { array_vec_len out.old + 134 ≤ N }
    ensures puts { out.new.items ≡ out.old.items ++ counts_line (part_counts counts) counts.roles }
    ensures upper_bound { array_vec_len out.new ≤ array_vec_len out.old + 134 }
{
    put_labelled(out, b"traits ", counts.names as u64);
    put_labelled(out, b" fresh ", counts.fresh as u64);
    put_labelled(out, b" some ", counts.existentials as u64);
    put_labelled(out, b" only ", counts.universals as u64);
    put_labelled(out, b" links ", counts.roles as u64);
    put_text(out, b"\n");
}

// The line of the sizes of the initial and the canonical set.
#[tactic(auto, unfolding(output::specs::Text::text, crate::specs::Lines::sizes_line))]
pub(crate) fn put_sizes<const N: usize>(out: &mut ArrayVec<u8, N>, opening: u64, survivors: u64)
    requires { array_vec_len out.old + 60 ≤ N }
    ensures puts { out.new.items ≡ out.old.items ++ sizes_line opening survivors }
    ensures upper_bound { array_vec_len out.new ≤ array_vec_len out.old + 60 }
{
    put_labelled(out, b"opening ", opening);
    put_labelled(out, b" survivors ", survivors);
    put_text(out, b"\n");
}

// The line of the verdict.
pub(crate) fn put_verdict<const N: usize>(out: &mut ArrayVec<u8, N>, met: bool)
    requires { array_vec_len out.old + 14 ≤ N }
    ensures { out.new.items ≡ out.old.items ++ verdict_line met }
{
    if met {
        put_text(out, b"can be met\n");
    } else {
        put_text(out, b"cannot be met\n");
    }
}

// The lines of what judge answered, beside the counts of parts by kind and of roles.
pub(crate) fn put_judged<const N: usize>(
    out: &mut ArrayVec<u8, N>,
    counts: Counts,
    answer: Result<Judgement, Refusal>,
)
    requires { array_vec_len out.old + 208 ≤ N }
    ensures { out.new.items ≡ out.old.items ++ judged_lines (part_counts counts) counts.roles (judge_numbers answer) }
{
    match answer {
        Err(refusal) => put_refusal(out, refusal),
        Ok(judgement) => {
            put_counts(out, counts);
            put_sizes(out, judgement.opening, judgement.survivors);
            put_verdict(out, judgement.is_met());
        }
    }
}

// Puts the evening program's lines for a sheet, judged with the lent words.
pub fn evening<const N: usize>(sheet: &[u8], set: &mut [u64], out: &mut ArrayVec<u8, N>)
    requires { array_vec_len out.old + 208 ≤ N }
    ensures { Reports (read_kb limit sheet.now) set.old set.new out.old.items out.new.items }
{
    match tbox::read(sheet) {
        Err(refusal) => put_refusal(out, refusal),
        Ok(counts) => {
            let answer = domino::judge(sheet, set);
            put_judged(out, counts, answer);
        }
    }
}
