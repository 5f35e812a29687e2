// Turns that touch no record, one after the other with no step among them. Document 01, "Lists and the drain".
#![tactic(auto)]

ghost use Rattle.std.specs.Prelude.{◌≡◌, ◌<◌, length, true, false, MatchOption};
ghost use Rattle.boxes.specs.Departure.{shown_departure};
ghost use Rattle.turn.specs.Turn.{put_def};
ghost use Rattle.turn.specs.Code.{flat, found, words_of, turn_with};
ghost use Rattle.pass.specs.Pass.{glanced, glance_first, glance_to, glance_pair, glance_at, pass_one, pass_all};
ghost use Rattle.pass.specs.Code.{seen_by, carried_with};

use boxes::{Departure, State};
use tables::Table;
use turn::{Carried, Pair, Receiver};
use wires::{Message, Store, Wire};

// ---- a look at a pair

// What a look at the next pair shows where the record stays as it is: whether a message was moved, and the links whose queue then holds one.
#[derive(Clone, Copy)]
pub struct Seen {
    pub moved: bool,
    pub heard: u16,
}

// The queue of the wire from a is empty, and the box is awake: a set that completes no round only waits. None, here and below, where the record would be
// touched: nothing is done.
#[tactic(auto, unfolding(crate::specs::Pass::glance_first))]
fn look_first(store: &mut Store, r: Receiver, a: usize) -> Option<Seen>
    requires { (a < 16) }
    ensures { glanced store.new.words (seen_by (words_of r) result) ≡ glance_first (words_of r) a store.old.words }
{
    let wire = Wire::between(a, r.own);
    if let Message::Neighbors { .. } = store.first(wire) {
        return None;
    }
    let heard = r.heard | sets::only(a);
    if heard == r.links {
        return None;
    }
    store.arrive(wire);
    Some(Seen { moved: true, heard })
}

// The oldest message from a is moved where that touches no record; else nothing is done.
#[tactic(auto, unfolding(crate::specs::Pass::glance_to))]
fn look(store: &mut Store, r: Receiver, a: usize) -> Option<Seen>
    requires { (a < 16) }
    ensures { glanced store.new.words (seen_by (words_of r) result) ≡ glance_to (words_of r) a store.old.words }
{
    let wire = Wire::between(a, r.own);
    let heard = r.heard;
    if store.under_way(wire) == 0 {
        return Some(Seen {
            moved: false,
            heard,
        });
    }
    match r.state {
        State::Stopped => {
            store.skip(wire);
        }
        State::Asleep => return None,
        State::Awake => {
            if store.queued(wire) == 0 {
                return look_first(store, r, a);
            }
            store.arrive(wire);
        }
    }
    Some(Seen { moved: true, heard })
}

// A box that has started starts no more.
#[tactic(auto, unfolding(crate::specs::Pass::glance_pair))]
fn look_at(store: &mut Store, p: Pair, r: Receiver) -> Option<Seen>
    ensures { glanced store.new.words (seen_by (words_of r) result) ≡ glance_pair (found (Some p)) (words_of r) store.old.words }
{
    if p.from != r.own {
        return look(store, r, p.from);
    }
    if r.sleeps() {
        return None;
    }
    Some(Seen {
        moved: false,
        heard: r.heard,
    })
}

// ---- such turns

// One turn that touches no record. None, with nothing done, where the next one would, or where the search finds no wire: the run is over.
fn pass_one(store: &mut Store, list: &[[u8; 2]], c: &mut Carried) -> Option<()>
    ensures { let l = flat list.now in let q = carried_with store.old.words c.old (length list.now) in MatchOption result (((glance_at l q).glance.quiet ≡ false) × (carried_with store.new.words c.new (length list.now) ≡ q)) (λ _. ((glance_at l q).glance.quiet ≡ true) × (carried_with store.new.words c.new (length list.now) ≡ pass_one l q)) }
{
    let p = turn::next_pair(list, c.at, store)?;
    let r = c.receiver(store, p.to);
    let k = look_at(store, p, r)?;
    let busy = Table::Busy.of(store, p.from);
    let to = sends::less_busy(store, k.moved, p.from, p.to, busy);
    Table::Heard.set(store, p.to, k.heard);
    Table::Busy.set(store, p.from, to);
    c.after(list.len(), k.moved);
    Some(())
}

// As many turns as touch no record, one after the other: most turns of a run, with no step and no table copied.
fn pass(store: &mut Store, list: &[[u8; 2]], c: &mut Carried)
    ensures { carried_with store.new.words c.new (length list.now) ≡ pass_all (flat list.now) (carried_with store.old.words c.old (length list.now)) }
{
    while 0 < c.left {
        match pass_one(store, list, c) {
            Some(()) => {}
            None => return,
        }
    }
}

// What goes out, and the turns after it that touch no record.
pub fn go_on(store: &mut Store, list: &[[u8; 2]], o: Departure, c: &mut Carried)
    ensures { carried_with store.new.words c.new (length list.now) ≡ pass_all (flat list.now) (put_def store.old.words (shown_departure o) (turn_with c.old (length list.now) store.old.words)) }
{
    sends::put(store, o, list.len(), c);
    pass(store, list, c);
}
