// The totals of a queue.
ghost use Rattle.std.specs.Prelude.{◌≡◌, ◌<◌, ◌≤◌, []};
ghost use Rattle.queue.specs.Queue.{survivors_in, totals_of};
ghost use Rattle.queue.specs.Steps.{added};

use crate::slots::SlotAnswer;
use std::marker::Model;

// Those of at most 4,096 slots, each with at most 2^18 survivors, as many as 4,096 words hold: so none wraps.
#[derive(Clone, Copy)]
pub struct Totals {
    pub sheets: u64,
    pub met: u64,
    pub unmet: u64,
    pub refused: u64,
    pub survivors: u64,
}

impl Model for Totals {
    ghost use Rattle.std.specs.Prelude.{◌≡◌, ◌+◌, ◌*◌, ◌≤◌};
    ghost use Rattle.queue.specs.Queue.{Sums};

    ghost Value = { Sums };

    ghost view = { λ a. record { sheets = a.sheets; met = a.met; unmet = a.unmet; refused = a.refused; survivors = a.survivors } };

    ghost invariant = { λ a. (a.sheets ≤ 4096) × (a.met + a.unmet + a.refused ≡ a.sheets) × (a.survivors ≤ 262144 * a.sheets) };

    ghost inverse = { λ s. record { sheets = s.sheets; met = s.met; unmet = s.unmet; refused = s.refused; survivors = s.survivors } };
}

// Those before the first slot.
// By hand, since a derived default has no clause that these are the totals of no slots.
impl Default for Totals {
    fn default() -> Totals
        ensures { result ≡ totals_of [] }
    {
        Totals {
            sheets: 0,
            met: 0,
            unmet: 0,
            refused: 0,
            survivors: 0,
        }
    }
}

impl Totals {
    // With one slot more.
    pub(crate) fn add(self, answer: SlotAnswer) -> Totals
        requires { (self.sheets < 4096) × (survivors_in answer ≤ 262144) }
        ensures { result ≡ added self answer }
    {
        let mut next = self;
        next.sheets += 1;
        match answer {
            SlotAnswer::Met(s) => {
                next.met += 1;
                next.survivors += s;
            }
            SlotAnswer::Unmet(s) => {
                next.unmet += 1;
                next.survivors += s;
            }
            SlotAnswer::Refused(_) => next.refused += 1,
        }
        next
    }
}
