// A run of the hub, turn by turn: the row and the store lent to each turn, the loop, and the owner of both. Document 01, "Lists and the drain".
#![tactic(auto)]

ghost use Rattle.std.specs.Prelude.{◌≡◌, ◌+◌, ◌/◌, ◌<◌, length};
ghost use Rattle.tables.specs.Tables.{laid};
ghost use Rattle.boxes.specs.Record.{shown_row};
ghost use Rattle.turn.specs.Code.{flat};
ghost use Rattle.turns.specs.Turns.{turns_def, asleep_row, own_def};
ghost use Rattle.turns.specs.Parts.{going_with, shown_ran, ran_of, on_def};

use boxes::Record;
use turn::Carried;
use wires::Store;

// ---- turns

// One turn, and those after it that touch no record: the row and the store are both lent. They are lent one beside the other, as document 01 has it, and a
// contract speaks of each.
fn one_turn(row: &mut [Record; 16], store: &mut Store, list: &[[u8; 2]], c: &mut Carried)
    ensures { going_with (shown_row row.new) store.new.words c.new (length list.now) ≡ on_def (flat list.now) (going_with (shown_row row.old) store.old.words c.old (length list.now)) }
{
    let h = turn::take(store, list, c);
    let o = rows::deliver_at(row, h.own, h);
    pass::go_on(store, list, o, c);
}

// One loop for the list and for the drain: it goes on while the state says so.
fn run_turns(row: &mut [Record; 16], store: &mut Store, list: &[[u8; 2]], c: &mut Carried)
    ensures { going_with (shown_row row.new) store.new.words c.new (length list.now) ≡ turns_def c.old.left (flat list.now) (going_with (shown_row row.old) store.old.words c.old (length list.now)) }
{
    while 0 < c.left {
        one_turn(row, store, list, c);
    }
}

// ---- the whole

// What a run leaves: the row, by value, and the last turn's state.
#[derive(Drop)]
pub struct Ran {
    pub row: [Record; 16],
    pub turn: Carried,
}

// "The run itself owns the row and lends it inward": the row and the store are local arrays, lent to the turns. Every box is asleep at first.
fn run_from(list: &[[u8; 2]], links: [u16; 16], first: Carried) -> Ran
    ensures { shown_ran result ≡ ran_of (turns_def first.left (flat list.now) (going_with asleep_row (laid links) first (length list.now))) }
{
    let sleeping = boxes::asleep();
    let mut row = [sleeping; 16];
    let mut store = tables::lay(links);
    let mut turn = first;
    run_turns(&mut row, &mut store, list, &mut turn);
    Ran { row, turn }
}

// The whole run, from a sleeping hub: the pairs of the list, then at most budget deliveries.
pub fn run_own(list: &[u8], links: [u16; 16], budget: usize) -> Ran
    requires { length list.now / 2 + budget < 18446744073709551616 }
    ensures { shown_ran result ≡ ran_of (own_def list.now links budget) }
{
    let (pairs, _) = list.as_chunks::<2>();
    run_from(pairs, links, Carried::first(pairs.len() + budget))
}
