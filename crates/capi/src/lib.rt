// The functions for C and Rust: numbers and slices only, each a thin call. Each answers the refusal's number, 0 for done; a
// refusal writes its place, a call that is done its values. Place, words and values are parameters of each call, and open, settle,
// judge, check, draw, import and export are written out, since the C header fixes every name and parameter.
#![tactic(auto)]

ghost use Rattle.std.specs.Prelude.{◌≡◌, get_or};
ghost use Rattle.refusals.specs.Numbers.{refusal_numbers};
ghost use Rattle.domino.specs.Answers.{verdict_is, verdict_numbers};
ghost use Rattle.drawings.specs.Checking.{breach_numbers};
ghost use Rattle.interpretation.specs.Answers.{finding_is};
ghost use Rattle.capi.specs.Out.{result_out, place_out, value_out};
ghost use Rattle.capi.specs.Out.{read_said, SumOut, list_said, list_left, open_said, open_left, strike_said, strike_left, settle_said, settle_left, judge_said, judge_left};
ghost use Rattle.capi.specs.Out.{check_said, check_left, draw_said, draw_left, import_said, import_left, export_said, export_left};

use domino::Verdict;
use interpretation::drawing::Finding;
use refusals::Refusal;

// A refusal: its number is returned, and its place written.
fn refuse(refusal: Refusal, place: &mut u64) -> u64
    ensures value { result ≡ result_out (refusal_numbers refusal) }
    ensures place_after { place.new ≡ place_out (refusal_numbers refusal) place.old }
{
    *place = refusal.place as u64;
    u64::from(refusal.reason.number())
}

// Read: how many parts are names, fresh names, existentials and universals, and how many roles there are.
#[unsafe(no_mangle)]
pub extern "C" fn lodhrussi_read(
    sheet: &[u8],
    place: &mut u64,
    traits: &mut u64,
    fresh: &mut u64,
    some: &mut u64,
    only: &mut u64,
    links: &mut u64,
) -> u64
    ensures value { result ≡ result_out (read_said sheet.now) }
    ensures place_after { place.new ≡ place_out (read_said sheet.now) place.old }
    ensures traits_after { traits.new ≡ value_out 0 (read_said sheet.now) traits.old }
    ensures fresh_after { fresh.new ≡ value_out 1 (read_said sheet.now) fresh.old }
    ensures some_after { some.new ≡ value_out 2 (read_said sheet.now) some.old }
    ensures only_after { only.new ≡ value_out 3 (read_said sheet.now) only.old }
    ensures links_after { links.new ≡ value_out 4 (read_said sheet.now) links.old }
    ensures sum { SumOut sheet.now traits.new fresh.new some.new only.new }
{
    match tbox::read(sheet) {
        Err(refusal) => refuse(refusal, place),
        Ok(counts) => {
            *traits = counts.names as u64;
            *fresh = counts.fresh as u64;
            *some = counts.existentials as u64;
            *only = counts.universals as u64;
            *links = counts.roles as u64;
            0
        }
    }
}

// List marks: three bytes a part into the list.
#[unsafe(no_mangle)]
pub extern "C" fn lodhrussi_list_marks(sheet: &[u8], list: &mut [u8], place: &mut u64) -> u64
    ensures value { result ≡ result_out (list_said sheet.now list.old) }
    ensures place_after { place.new ≡ place_out (list_said sheet.now list.old) place.old }
    ensures list_after { list.new ≡ list_left sheet.now list.old }
{
    match tbox::list_marks(sheet, list) {
        Err(refusal) => refuse(refusal, place),
        Ok(_) => 0,
    }
}

// Open: the initial set into the words; its size.
#[unsafe(no_mangle)]
pub extern "C" fn lodhrussi_open(
    sheet: &[u8],
    set: &mut [u64],
    place: &mut u64,
    size: &mut u64,
) -> u64
    ensures value { result ≡ result_out (open_said sheet.now set.old) }
    ensures place_after { place.new ≡ place_out (open_said sheet.now set.old) place.old }
    ensures size_after { size.new ≡ value_out 0 (open_said sheet.now set.old) size.old }
    ensures set_after { set.new ≡ open_left sheet.now set.old }
{
    match domino::open(sheet, set) {
        Err(refusal) => refuse(refusal, place),
        Ok(initial) => {
            *size = initial;
            0
        }
    }
}

// A verdict's number, 0 Absent, 1 Struck, 2 Kept; and, when struck, the condition.
fn put_verdict(found: Verdict, verdict: &mut u64, condition: &mut u64)
    ensures verdict_after { verdict.new ≡ get_or (verdict_numbers (verdict_is found)) 0 verdict.old }
    ensures condition_after { condition.new ≡ get_or (verdict_numbers (verdict_is found)) 1 condition.old }
{
    match found {
        Verdict::Absent => *verdict = 0,
        Verdict::Struck(failed) => {
            *verdict = 1;
            *condition = u64::from(failed.number());
        }
        Verdict::Kept => *verdict = 2,
    }
}

// Strike: the verdict on one domino, and the condition that a struck one failed.
#[unsafe(no_mangle)]
pub extern "C" fn lodhrussi_strike(
    sheet: &[u8],
    set: &mut [u64],
    number: u64,
    place: &mut u64,
    verdict: &mut u64,
    condition: &mut u64,
) -> u64
    ensures value { result ≡ result_out (strike_said sheet.now number set.old) }
    ensures place_after { place.new ≡ place_out (strike_said sheet.now number set.old) place.old }
    ensures verdict_after { verdict.new ≡ value_out 1 (strike_said sheet.now number set.old) verdict.old }
    ensures condition_after { condition.new ≡ value_out 2 (strike_said sheet.now number set.old) condition.old }
    ensures set_after { set.new ≡ strike_left sheet.now number set.old }
{
    match domino::strike(sheet, set, number as usize) {
        Err(refusal) => refuse(refusal, place),
        Ok(outcome) => {
            put_verdict(outcome.verdict, verdict, condition);
            0
        }
    }
}

// Settle: leaves the largest stable subset; how many are left.
#[unsafe(no_mangle)]
pub extern "C" fn lodhrussi_settle(
    sheet: &[u8],
    set: &mut [u64],
    place: &mut u64,
    survivors: &mut u64,
) -> u64
    ensures value { result ≡ result_out (settle_said sheet.now set.old) }
    ensures place_after { place.new ≡ place_out (settle_said sheet.now set.old) place.old }
    ensures survivors_after { survivors.new ≡ value_out 0 (settle_said sheet.now set.old) survivors.old }
    ensures set_after { set.new ≡ settle_left sheet.now set.old }
{
    match domino::settle(sheet, set) {
        Err(refusal) => refuse(refusal, place),
        Ok(left) => {
            *survivors = left;
            0
        }
    }
}

// Judge: leaves the canonical set; the sizes of the initial and the canonical set, and 1 or 0 for met or unmet.
#[unsafe(no_mangle)]
pub extern "C" fn lodhrussi_judge(
    sheet: &[u8],
    set: &mut [u64],
    place: &mut u64,
    opening: &mut u64,
    survivors: &mut u64,
    met: &mut u64,
) -> u64
    ensures value { result ≡ result_out (judge_said sheet.now set.old) }
    ensures place_after { place.new ≡ place_out (judge_said sheet.now set.old) place.old }
    ensures opening_after { opening.new ≡ value_out 0 (judge_said sheet.now set.old) opening.old }
    ensures survivors_after { survivors.new ≡ value_out 1 (judge_said sheet.now set.old) survivors.old }
    ensures met_after { met.new ≡ value_out 2 (judge_said sheet.now set.old) met.old }
    ensures set_after { set.new ≡ judge_left sheet.now set.old }
{
    match domino::judge(sheet, set) {
        Err(refusal) => refuse(refusal, place),
        Ok(judgement) => {
            *opening = judgement.opening;
            *survivors = judgement.survivors;
            *met = u64::from(judgement.is_met());
            0
        }
    }
}

// A finding's number, 0 all holds, 1 an individual, 2 a pair; and what is named.
fn put_finding(found: Finding, breach: &mut u64, first: &mut u64, second: &mut u64)
    ensures breach_after { breach.new ≡ get_or (breach_numbers (finding_is found)) 0 breach.old }
    ensures first_after { first.new ≡ get_or (breach_numbers (finding_is found)) 1 first.old }
    ensures second_after { second.new ≡ get_or (breach_numbers (finding_is found)) 2 second.old }
{
    match found {
        Finding::Holds => *breach = 0,
        Finding::Individual(x) => {
            *breach = 1;
            *first = x as u64;
        }
        Finding::Pair(x, y) => {
            *breach = 2;
            *first = x as u64;
            *second = y as u64;
        }
    }
}

// Check a drawn plant: its dominoes into the words; where it breaks the sheet first.
#[unsafe(no_mangle)]
pub extern "C" fn lodhrussi_check_plant(
    sheet: &[u8],
    plant: &[u8],
    set: &mut [u64],
    place: &mut u64,
    breach: &mut u64,
    first: &mut u64,
    second: &mut u64,
) -> u64
    ensures value { result ≡ result_out (check_said sheet.now plant.now set.old) }
    ensures place_after { place.new ≡ place_out (check_said sheet.now plant.now set.old) place.old }
    ensures breach_after { breach.new ≡ value_out 0 (check_said sheet.now plant.now set.old) breach.old }
    ensures first_after { first.new ≡ value_out 1 (check_said sheet.now plant.now set.old) first.old }
    ensures second_after { second.new ≡ value_out 2 (check_said sheet.now plant.now set.old) second.old }
    ensures set_after { set.new ≡ check_left sheet.now plant.now set.old }
{
    match interpretation::check_plant(sheet, plant, set) {
        Err(refusal) => refuse(refusal, place),
        Ok(found) => {
            put_finding(found, breach, first, second);
            0
        }
    }
}

// Draw a plant: its records into the output; how many bytes. The words are left as judge leaves them.
#[unsafe(no_mangle)]
pub extern "C" fn lodhrussi_draw_plant(
    sheet: &[u8],
    set: &mut [u64],
    out: &mut [u8],
    place: &mut u64,
    written: &mut u64,
) -> u64
    ensures value { result ≡ result_out (draw_said sheet.now set.old out.old) }
    ensures place_after { place.new ≡ place_out (draw_said sheet.now set.old out.old) place.old }
    ensures written_after { written.new ≡ value_out 0 (draw_said sheet.now set.old out.old) written.old }
    ensures set_after { set.new ≡ judge_left sheet.now set.old }
    ensures out_after { out.new ≡ draw_left sheet.now set.old out.old }
{
    match interpretation::draw_plant(sheet, set, out) {
        Err(refusal) => refuse(refusal, place),
        Ok(n) => {
            *written = n as u64;
            0
        }
    }
}

// Import: a text's sheet into the output; how many bytes.
#[unsafe(no_mangle)]
pub extern "C" fn lodhrussi_import(
    text: &[u8],
    out: &mut [u8],
    place: &mut u64,
    written: &mut u64,
) -> u64
    ensures value { result ≡ result_out (import_said text.now out.old) }
    ensures place_after { place.new ≡ place_out (import_said text.now out.old) place.old }
    ensures written_after { written.new ≡ value_out 0 (import_said text.now out.old) written.old }
    ensures out_after { out.new ≡ import_left text.now out.old }
{
    match owl_import::import(text, out) {
        Err(refusal) => refuse(refusal, place),
        Ok(n) => {
            *written = n as u64;
            0
        }
    }
}

// Export: a sheet's text into the output; how many bytes.
#[unsafe(no_mangle)]
pub extern "C" fn lodhrussi_export(
    sheet: &[u8],
    out: &mut [u8],
    place: &mut u64,
    written: &mut u64,
) -> u64
    ensures value { result ≡ result_out (export_said sheet.now out.old) }
    ensures place_after { place.new ≡ place_out (export_said sheet.now out.old) place.old }
    ensures written_after { written.new ≡ value_out 0 (export_said sheet.now out.old) written.old }
    ensures out_after { out.new ≡ export_left sheet.now out.old }
{
    match owl_export::export(sheet, out) {
        Err(refusal) => refuse(refusal, place),
        Ok(n) => {
            *written = n as u64;
            0
        }
    }
}
