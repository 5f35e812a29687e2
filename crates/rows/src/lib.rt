// The boxes' records where they lie: one lent record, and the row of them. Document 01, "The tables at rest".
#![tactic(auto)]

ghost use Rattle.std.specs.Prelude.{◌≡◌, ◌<◌, length, set, get_or};
ghost use Rattle.boxes.specs.Record.{shown, shown_row, blank};
ghost use Rattle.boxes.specs.Arrival.{shown_arrival};
ghost use Rattle.boxes.specs.Departure.{shown_departure};
ghost use Rattle.boxes.specs.Step.{step_def};

use boxes::{Arrival, Departure, Record};

// "a delivery rewrites the receiver's record where it sits": the step by value, its record stored back, what goes out handed on.
pub fn deliver(r: &mut Record, a: Arrival) -> Departure
    ensures { (shown r.new ≡ (step_def (shown r.old) (shown_arrival a)).«record») × (shown_departure result ≡ (step_def (shown r.old) (shown_arrival a)).out) }
{
    let s = boxes::step(*r, a);
    *r = s.record;
    s.out
}

// "The boxes' records stand side by side in one lent row": the receiver's record is lent on, and all others stay as they are.
#[tactic(auto, using(crate::specs::Laws::row_stored, crate::specs::Laws::row_told))]
pub fn deliver_at(row: &mut [Record], b: usize, a: Arrival) -> Departure
    requires { b < length row.old }
    ensures { (shown_row row.new ≡ set (shown_row row.old) b (step_def (get_or (shown_row row.old) b blank) (shown_arrival a)).«record») × (shown_departure result ≡ (step_def (get_or (shown_row row.old) b blank) (shown_arrival a)).out) }
{
    deliver(&mut row[b], a)
}
