// The first part of a turn, before the box's own step: the next pair, and what it brings; and the state that a run carries. Document 01, "Lists and the
// drain".
#![tactic(auto)]

ghost use Rattle.std.specs.Prelude.{◌≡◌, ℕ, ◌<◌, length};
ghost use Rattle.wires.specs.Words.{Small, origin_of, set_of};
ghost use Rattle.wires.specs.Messages.{said, Reads};
ghost use Rattle.rules.specs.Sets.{word};
ghost use Rattle.tables.specs.Tables.{links_of, heard_of, busy_of};
ghost use Rattle.boxes.specs.Arrival.{shown_arrival};
ghost use Rattle.turn.specs.Turn.{searched, pair_of, took_def};
ghost use Rattle.turn.specs.Parts.{took, receiver_from, quiet_to, one_list_to, round_to, first_to, delivered_to};
ghost use Rattle.turn.specs.Code.{flat, found, words_of, turn_with, first_carried, gone_on, marked};

use boxes::{Arrival, State};
use mail::Gathered;
use tables::Table;
use wires::{Message, Store, Wire};

pub mod ends;

pub use ends::{Pair, Receiver};

// What a run carries from turn to turn; what it has by box stands in the store (crate tables), and the pairs in the list.
#[derive(Clone, Copy)]
pub struct Carried {
    // how many turns may still come; the next pair of the list
    pub left: usize,
    pub at: usize,
    // the counts
    pub sent: u32,
    pub moved: u32,
    // the boxes that are awake, and those that have stopped: two sets and not a state for each box, as `Turn` has them
    pub awake: u16,
    pub stopped: u16,
    // a message found no room
    pub full: bool,
}

impl Carried {
    // Before the first turn every box sleeps, and nothing has gone out.
    pub fn first(left: usize) -> Self
        ensures { result ≡ first_carried left }
    {
        Carried {
            left,
            at: 0,
            sent: 0,
            moved: 0,
            awake: 0,
            stopped: 0,
            full: false,
        }
    }

    // After a turn, where the list has so many pairs: one turn fewer may come, and none once the list is over and nothing was moved.
    pub fn after(&mut self, pairs: usize, moved: bool)
        ensures { self.new ≡ gone_on self.old pairs moved }
    {
        let listed = self.at < pairs;
        self.left = if listed || moved {
            self.left.saturating_sub(1)
        } else {
            0
        };
        if listed {
            self.at += 1;
        }
        if moved {
            self.moved = self.moved.wrapping_add(1);
        }
    }

    // Box b has stopped in this turn, or it has woken in it, or it stands as it did.
    pub fn mark(&mut self, b: usize, ended: bool, woke: bool)
        requires { b < 16 }
        ensures { self.new ≡ marked self.old b ended woke }
    {
        let own = sets::only(b);
        if ended {
            self.awake = sets::minus(self.awake, own);
            self.stopped |= own;
        } else if woke {
            self.awake |= own;
        }
    }

    // What a turn has to know of box b. A box that has stopped is not asleep, whatever else is known of it.
    pub fn receiver(&self, store: &Store, b: usize) -> Receiver
        requires { b < 16 }
        ensures { words_of result ≡ receiver_from b (word (links_of store.now.words) b) (word (heard_of store.now.words) b) self.now.awake self.now.stopped }
    {
        let state = if sets::is_in(self.stopped, b) {
            State::Stopped
        } else if sets::is_in(self.awake, b) {
            State::Awake
        } else {
            State::Asleep
        };
        Receiver {
            own: b,
            links: Table::Links.of(store, b),
            heard: Table::Heard.of(store, b),
            state,
        }
    }
}

// ---- the next pair

// "It searches senders ascending, then receivers, and leaves the search at the first wire that holds a message." Nested loops that are left by a label, as the
// document asks: an iterator's `find` would hide what it says.
fn search(store: &Store) -> Option<Pair>
    ensures { found result ≡ searched (busy_of store.now.words) }
{
    let mut p = None;
    'search: for a in 0..16 {
        let to = Table::Busy.of(store, a);
        if to != 0 {
            for b in 0..16 {
                if sets::is_in(to, b) {
                    p = Some(Pair { from: a, to: b });
                    break 'search;
                }
            }
        }
    }
    p
}

// The pairs of the list, while it lasts; then the search.
pub fn next_pair(list: &[[u8; 2]], at: usize, store: &Store) -> Option<Pair>
    ensures { found result ≡ pair_of (flat list.now) at (length list.now) (busy_of store.now.words) }
{
    match list.get(at) {
        Some(pair) => Some(Pair {
            from: (pair[0] % 16) as usize,
            to: (pair[1] % 16) as usize,
        }),
        None => search(store),
    }
}

// ---- what it brings

// Here and below the sender a stands beside the receiver, as in `quiet_to` to `delivered_to`.

// Nothing for the record but, maybe, that the box wakes.
#[tactic(auto, unfolding(crate::specs::Parts::quiet_to))]
fn quiet(r: Receiver, a: usize, moved: bool, wakes: bool, heard: u16) -> Arrival
    ensures { shown_arrival result ≡ quiet_to (words_of r) a moved wakes heard }
{
    Arrival {
        own: r.own,
        from: a,
        links: r.links,
        listed: 0,
        heard,
        lists: [0; 16],
        heads: None,
        moved,
        wakes,
    }
}

// A list at the head of an empty queue is taken at once.
#[tactic(auto, unfolding(crate::specs::Parts::quiet_to, crate::specs::Parts::one_list_to))]
fn one_list(r: Receiver, a: usize, origin: usize, set: u16) -> Arrival
    requires { origin < 16 }
    ensures told { (x : ℕ) → origin ≡ origin_of x → set ≡ set_of x → shown_arrival result ≡ one_list_to (words_of r) a x }
    ensures own { result.own ≡ r.own }
{
    // a table of its own, as in `boxes::step`
    let mut lists = [0; 16];
    lists[origin] = set;
    let mut h = quiet(r, a, true, r.sleeps(), r.heard);
    h.listed = sets::only(origin);
    h.lists = lists;
    h
}

// "All queues have a NOTSPT message at their heads: do a round."
#[tactic(auto, unfolding(crate::specs::Parts::round_to, crate::specs::Parts::quiet_to))]
fn take_round(store: &mut Store, r: Receiver, a: usize) -> Arrival
    ensures { (took store.new.words (shown_arrival result) ≡ round_to (words_of r) a store.old.words) × (result.own ≡ r.own) }
{
    let Gathered {
        heads,
        listed,
        lists,
        heard,
    } = mail::gather(store, r.own, r.links);
    let mut h = quiet(r, a, true, r.sleeps(), heard);
    h.listed = listed;
    h.lists = lists;
    h.heads = Some(heads);
    h
}

// The message has joined the queue of the wire from a, which was empty.
#[tactic(auto, unfolding(crate::specs::Parts::first_to, crate::specs::Parts::quiet_to, crate::specs::Parts::one_list_to))]
fn take_first(store: &mut Store, r: Receiver, a: usize, message: Message) -> Arrival
    requires { (a < 16) × Small (said message) }
    ensures taken { (x : ℕ) → Reads message x → took store.new.words (shown_arrival result) ≡ first_to (words_of r) a x store.old.words }
    ensures own { result.own ≡ r.own }
{
    if let Message::Neighbors { origin, links } = message {
        store.take(Wire::between(a, r.own));
        return one_list(r, a, usize::from(origin), links);
    }
    let heard = r.heard | sets::only(a);
    if heard == r.links {
        return take_round(store, r, a);
    }
    quiet(r, a, true, r.sleeps(), heard)
}

// "A delivery takes the oldest message off a wire."
#[tactic(auto, unfolding(crate::specs::Parts::delivered_to, crate::specs::Parts::quiet_to))]
fn take_oldest(store: &mut Store, r: Receiver, a: usize) -> Arrival
    requires { a < 16 }
    ensures { (took store.new.words (shown_arrival result) ≡ delivered_to (words_of r) a store.old.words) × (result.own ≡ r.own) }
{
    let wire = Wire::between(a, r.own);
    if store.under_way(wire) == 0 {
        return quiet(r, a, false, false, r.heard);
    }
    if r.stopped() {
        store.skip(wire);
        return quiet(r, a, true, false, r.heard);
    }
    let waits = store.queued(wire) != 0;
    match store.arrive(wire) {
        Some(message) if !waits => take_first(store, r, a, message),
        _ => quiet(r, a, true, false, r.heard),
    }
}

// "a = b starts box a. Otherwise the oldest message on the wire from a to b is delivered."
#[tactic(auto, using(crate::proofs::Laws::delivered_is), unfolding(crate::specs::Turn::took_def, crate::specs::Turn::took_pair, crate::specs::Turn::begun, crate::specs::Turn::quiet, crate::specs::Turn::sleeps, crate::specs::Turn::next_pair, crate::specs::Parts::quiet_to, crate::specs::Parts::receiver_of))]
pub fn take(store: &mut Store, list: &[[u8; 2]], c: &Carried) -> Arrival
    ensures { (shown_arrival result ≡ (took_def (flat list.now) store.old.words (turn_with c.now (length list.now) store.old.words)).arrival) × ((store.new.words ≡ (took_def (flat list.now) store.old.words (turn_with c.now (length list.now) store.old.words)).store) × (result.own < 16)) }
{
    let Some(p) = next_pair(list, c.at, store) else {
        let r = c.receiver(store, 0);
        return quiet(r, 0, false, false, r.heard);
    };
    let r = c.receiver(store, p.to);
    if p.from == p.to {
        return quiet(r, p.to, false, r.sleeps(), r.heard);
    }
    take_oldest(store, r, p.from)
}
